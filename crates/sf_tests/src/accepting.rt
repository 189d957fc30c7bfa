//! What texts of networks are checked and dumped as, up to the largest.
use crate::networks::DELAY;
use sf_func::Registry;
use sf_player::{Refusal, Rule, Spot, check_text, dump_text};
use std::alloc::Global;
use std::test::Fail;

/// A delay's text with a comment behind it, of so many bytes.
fn commented(alloc: Global, size: usize) -> Result<Vec<u8>, Fail> {
    let mut text = Vec::new(alloc);
    text.extend_from_slice(DELAY)?;
    text.push(b'#')?;
    for _ in text.len()..size {
        text.push(b' ')?;
    }
    Ok(text)
}

#[test]
fn a_text_is_accepted_or_refused(rt: HostRuntime) -> Result<(), Fail> {
    let alloc = rt.alloc();
    let functions = Registry::new(alloc);
    check_text(alloc, DELAY, &functions)?;
    let unknown = b"network 1;\ntemplate main(): Int ~> Int = run k;\n";
    let place = Spot {
        line: 2,
        column: 35,
    };
    let refused = check_text(alloc, unknown, &functions).err();
    assert_eq!(rt; refused, Some(Refusal::broken(Rule::UnknownName, place)));
    let cut = b"network 1;\ntemplate main(): Int ~>";
    let place = Spot {
        line: 2,
        column: 24,
    };
    let refused = check_text(alloc, cut, &functions).err();
    assert_eq!(rt; refused, Some(Refusal::broken(Rule::Unexpected, place)));
    Ok(())
}

#[test]
fn what_is_not_accepted_is_dumped_all_the_same(rt: HostRuntime) -> Result<(), Fail> {
    let alloc = rt.alloc();
    let unknown = b"network 1;\ntemplate main(): Int ~> Int = run   k;\n";
    let wanted = b"network 1;\ntemplate main(): Int ~> Int = run k;\n";
    let dumped = dump_text(alloc, unknown)?;
    assert!(rt; dumped.as_slice() == wanted.as_slice());
    let again = dump_text(alloc, &dumped)?;
    assert!(rt; again.as_slice() == wanted.as_slice());
    Ok(())
}

#[test]
fn the_largest_text_is_checked_and_dumped(rt: HostRuntime) -> Result<(), Fail> {
    let alloc = rt.alloc();
    let functions = Registry::new(alloc);
    let text = commented(alloc, 1_048_576)?;
    check_text(alloc, &text, &functions)?;
    let dumped = dump_text(alloc, &text)?;
    assert!(rt; dumped.as_slice() == DELAY);
    let text = commented(alloc, 1_048_577)?;
    let too_long = Some(Refusal::broken(Rule::TooLong, Spot::FIRST));
    assert_eq!(rt; check_text(alloc, &text, &functions).err(), too_long);
    assert_eq!(rt; dump_text(alloc, &text).err(), too_long);
    Ok(())
}
