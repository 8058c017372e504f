use crate::tapes_tests::{needs_of, order_of, places_at, word_at};
use std::alloc::AllocError;
use std::test::Fail;
use tapes::{Cursor, Draw, Need, Needs, Tape};

// The draws word 7, words 8 and 9, order 1 0, word 10, order 0.
fn six_draws(rt: &HostRuntime) -> Result<Tape, Fail> {
    let draws = vec![in rt.alloc();
        Draw::Word(7),
        Draw::Word(8),
        Draw::Word(9),
        Draw::Order(order_of(rt, &[1, 0])?),
        Draw::Word(10),
        Draw::Order(order_of(rt, &[0])?),
    ]?;
    Ok(Tape::new(draws)?)
}

fn has_words(tape: &Tape) -> bool {
    tape.len() == 6
        && word_at(tape, 0) == Some(7)
        && word_at(tape, 1) == Some(8)
        && word_at(tape, 2) == Some(9)
        && word_at(tape, 3).is_none()
        && word_at(tape, 4) == Some(10)
        && word_at(tape, 5).is_none()
}

fn has_orders(tape: &Tape) -> bool {
    places_at(tape, 3) == Some([1, 0].as_slice()) && places_at(tape, 5) == Some([0].as_slice())
}

// Whether a reader that stands before three words lends two of them, none and the third.
fn lends_words(cursor: &mut Cursor<'_>) -> bool {
    cursor.words_ready() == 3
        && cursor.next_words(4).is_none()
        && cursor.next_words(2) == Some([7, 8].as_slice())
        && cursor.place() == 2
        && cursor.next_words(2).is_none()
        && cursor.next_words(0) == Some([].as_slice())
        && cursor.next_words(1) == Some([9].as_slice())
}

// Whether it then gives an order and the last word.
fn gives_order_and_word(cursor: &mut Cursor<'_>) -> bool {
    cursor.next_words(1).is_none()
        && cursor.next_order().is_some()
        && cursor.next_word() == Some(10)
        && cursor.next_word().is_none()
}

// Whether readers that start behind the first of six draws give what stands there.
fn starts_anywhere(tape: &Tape) -> bool {
    if tape.len() != 6 {
        return false;
    }
    let is_order = tape.cursor_at(3).next_order().is_some();
    let is_word = tape.cursor_at(4).next_words(1) == Some([10].as_slice());
    is_order && is_word && tape.cursor_at(6).next_word().is_none()
}

// By index, in bulk and one by one.
#[test]
fn words_are_lent_in_bulk(rt: HostRuntime) -> Result<(), Fail> {
    let tape = six_draws(&rt)?;
    assert!(rt; has_words(&tape));
    assert!(rt; has_orders(&tape));
    let mut cursor = tape.cursor();
    assert!(rt; lends_words(&mut cursor));
    assert!(rt; gives_order_and_word(&mut cursor));
    assert!(rt; starts_anywhere(&tape));
    Ok(())
}

// A word and an order of 2.
fn word_and_order(rt: &HostRuntime) -> Result<Tape, Fail> {
    let draws = vec![in rt.alloc(); Draw::Word(7), Draw::Order(order_of(rt, &[1, 0])?)]?;
    Ok(Tape::new(draws)?)
}

fn first_unfit(rt: &HostRuntime, tape: &Tape, list: &[Need]) -> Result<Option<u64>, Fail> {
    Ok(tape.first_unfit(&needs_of(rt, list)?))
}

// Needs that fit and others that don't.
#[test]
fn the_first_unfit_draw_is_named(rt: HostRuntime) -> Result<(), Fail> {
    let tape = word_and_order(&rt)?;
    let cases: [(&[Need], Option<u64>); 6] = [
        (&[Need::Word, Need::OrderOf(2)], None),
        (&[Need::Word, Need::Word], Some(1)),
        (&[Need::Word, Need::OrderOf(3)], Some(1)),
        (&[Need::OrderOf(2), Need::Word], Some(0)),
        (&[Need::Word, Need::OrderOf(2), Need::Word], Some(2)),
        (&[Need::Word], Some(1)),
    ];
    for (list, place) in cases {
        assert_eq!(rt; first_unfit(&rt, &tape, list)?, place);
    }
    Ok(())
}

fn push_nine(needs: &mut Needs) -> Result<(), AllocError> {
    needs.push_words(5)?;
    needs.push(Need::Word)?;
    needs.push_run(Need::OrderOf(2), 3)?;
    Ok(())
}

fn are_nine(needs: &Needs) -> bool {
    needs.len() == 9 && needs.runs().len() == 2
}

// Runs of equal needs join, so a long schedule of one sort is one run.
#[test]
fn equal_needs_join(rt: HostRuntime) -> Result<(), Fail> {
    let mut needs = Needs::new(rt.alloc());
    assert!(rt; needs.is_empty());
    push_nine(&mut needs)?;
    assert!(rt; are_nine(&needs));
    assert!(rt; needs.push_run(Need::Word, usize::MAX).is_err());
    assert!(rt; are_nine(&needs));
    Ok(())
}
