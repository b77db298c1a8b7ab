//! Units as fen, heating months, and what a refusal tells.
use super::units;
use fault::{Code, Layer};
use sheet::sums::is_heating;
use tariff::refusal::TariffFault;

// What a refusal of a tariff tells: there is no place within it.
fn of_tariff(number: u8) -> Code {
    Code {
        number,
        layer: Layer::Tariff,
        place: 0,
    }
}

#[test]
fn fen_months_and_refusals(rt: HostRuntime) {
    assert_eq!(rt; units(0).to_fen().fen, 0);
    assert_eq!(rt; units(49).to_fen().fen, 0);
    assert_eq!(rt; units(50).to_fen().fen, 1);
    assert_eq!(rt; units(149).to_fen().fen, 1);
    assert_eq!(rt; units(150).to_fen().fen, 2);
    assert!(rt; !is_heating(0) && is_heating(1) && is_heating(4) && !is_heating(5));
    assert!(rt; !is_heating(11) && is_heating(12));
    assert_eq!(rt; TariffFault::TooDear.code(), of_tariff(11));
    assert_eq!(rt; TariffFault::Unlawful.code(), of_tariff(16));
}
