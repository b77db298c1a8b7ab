//! The arguments of the program `year`: what is understood, and what is said of the others.
use bill::arguments::household;
use bill::bill::Bill;
use bill::household::Household;
use bill::lines::Line;
use std::alloc::{AllocError, Global};
use std::test::Fail;

fn last_line(year: &Household) -> Option<Line> {
    let bill = Bill::new(year)?;
    bill.line(bill.len().checked_sub(1)?)
}

// The last line of the bill, or what is wrong with the arguments.
fn answer(heap: Global, text: &str) -> Result<String, AllocError> {
    let mut arguments = Vec::new(heap);
    for argument in text.split(' ') {
        arguments.push(String::from_str(heap, argument)?)?;
    }
    match household(&arguments) {
        Ok(year) => match last_line(&year) {
            Some(line) => line.to_string(heap),
            None => String::from_str(heap, "no line"),
        },
        Err(fault) => fault.to_string(heap),
    }
}

#[test]
fn years_that_are_rated(rt: HostRuntime) -> Result<(), Fail> {
    let heap = rt.alloc();
    assert_eq!(rt;
        answer(heap, "0 0 0 0 0 0 0 0 0 0 0 0")?.as_str(),
        "sum: 0.0000 yuan, to pay 0.00 yuan"
    );
    // 2,521 kWh: 2,520 at 0.5469 and 1 at 0.5969 yuan.
    assert_eq!(rt;
        answer(heap, "0 0 0 0 0 0 0 0 0 0 0 2521")?.as_str(),
        "sum: 1378.7849 yuan, to pay 1378.78 yuan"
    );
    // Multi-person in December alone: 11 months of 210 and one of 310 kWh.
    assert_eq!(rt;
        answer(heap, "2620 0 0 0 0 0 0 0 0 0 0 0 12")?.as_str(),
        "sum: 1432.8780 yuan, to pay 1432.88 yuan"
    );
    Ok(())
}

#[test]
fn arguments_that_are_refused(rt: HostRuntime) -> Result<(), Fail> {
    let heap = rt.alloc();
    let count = "expected the kWh of 12 months, and perhaps a month: 12 or 13 arguments, not ";
    assert_eq!(rt;
        answer(heap, "1 2 3")?.as_str(),
        format!(in heap; "{count}3")?.as_str()
    );
    assert_eq!(rt;
        answer(heap, "1 2 3 4 5 6 7 8 9 10 11 12 1 1")?.as_str(),
        format!(in heap; "{count}14")?.as_str()
    );
    let second = "argument 2: the kWh of month 2 must be a whole number from 0 to 999999";
    assert_eq!(rt;
        answer(heap, "1 2x 3 4 5 6 7 8 9 10 11 12")?.as_str(),
        second
    );
    assert_eq!(rt;
        answer(heap, "1 -2 -3 4 5 6 7 8 9 10 11 12")?.as_str(),
        second
    );
    assert_eq!(rt;
        answer(heap, "999999 1000000 3 4 5 6 7 8 9 10 11 12 13")?.as_str(),
        second
    );
    let mark =
        "argument 13: the month from which the household is multi-person must be a whole number from 1 to 12";
    assert_eq!(rt;
        answer(heap, "1 2 3 4 5 6 7 8 9 10 11 12 13")?.as_str(),
        mark
    );
    assert_eq!(rt;
        answer(heap, "1 2 3 4 5 6 7 8 9 10 11 12 0")?.as_str(),
        mark
    );
    Ok(())
}
