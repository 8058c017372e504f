//! Random queries of every statement over random files: `run` answers as `plain` does.

use crate::conclave_top_tests::folder_of;
use crate::runs::{is_printed, taped_run};
use rand::rngs::StdRng;
use rand::{RngExt, SeedableRng};
use std::alloc::{AllocError, Global};
use std::test::Fail;

// Relations, and a further one to join with. Every node but those of joins has the columns of the first three.
const RELATIONS: &[u8] = b"relation n0 of 1 rows 2 (k num, x num, t text)
relation n1 of 2 rows 2 (k num, x num, t text)
relation n2 of 3 rows 2 (k num, x num, t text)
relation w of 2 rows 2 (k num, w num)
";

// Statements of every kind, in which # is the number of the node, $ that of an earlier one, % a number and @ a text.
const STATEMENTS: &[&[u8]] = &[
    b"n# = filter n$ where k < % and t != \"@\"\n",
    b"n# = filter n$ where x >= k\n",
    b"n# = select n$ (k = x + %, x = k * %, t)\n",
    b"f# = select n$ (k, x = x - k, t, f = k <= %, e = t == \"@\")\ng# = filter f# where f == true\nn# = select g# (k, x, t)\n",
    b"f# = select n$ (k, x, t, f = k > %, e = x != %)\ng# = select f# (k, x, t, f = f & e, e = f | e)\nh# = filter g# where f != e\nn# = select h# (k, x, t = \"@\")\n",
    b"n# = concat n$ n$\n",
    b"n# = concat n$ n0 n1\n",
    b"j# = join n$ w on k\nn# = select j# (k, x = x + w, t)\n",
    b"m# = select n$ (k, x, y = x)\nj# = join m# n2 on k, x\nn# = select j# (k, x = y, t)\n",
    b"n# = group n$ by k (x = sum x, t = greatest t)\n",
    b"g# = group n$ by t, k (x = count, l = least x)\nn# = select g# (k = l, x, t)\n",
    b"n# = group n$ (k = least k, x = sum x, t = least t)\n",
    b"n# = distinct n$\n",
];

// Outputs to every set of parties; the first is of the last node.
const OUTPUTS: &[&[u8]] = &[
    b"output n# to 1\n",
    b"output n# to 2 3\noutput w to 1\n",
    b"output n# to 1 2 3\noutput n$ to 3\n",
    b"output n$ to 1 3\noutput n# to 2\n",
    b"output n# to 1 2\n",
];

const NUMBERS: &[&[u8]] = &[b"0", b"1", b"2", b"3", b"18446744073709551615"];

const TEXTS: &[&[u8]] = &[b"", b"a", b"b"];

const FIELDS: &[&[u8]] = &[b"", b"a", b"b", b"\"b,\""];

const DIGITS: &[&[u8]] = &[b"0", b"1", b"2", b"3", b"4"];

// A number to choose by.
fn drawn(random: &mut StdRng) -> usize {
    random.random_range(0usize..5040)
}

// One of some words, by a number to choose by.
fn one_of(words: &[&'static [u8]], drawn: usize) -> &'static [u8] {
    if words.is_empty() {
        return b"";
    }
    words[drawn % words.len()]
}

// What a sign is filled in with, by the number of the node and a number to choose by.
fn filled(sign: u8, node: usize, drawn: usize) -> Option<&'static [u8]> {
    match sign {
        b'#' => DIGITS.get(node).copied(),
        b'$' => DIGITS.get(drawn % node.max(1)).copied(),
        b'%' => Some(one_of(NUMBERS, drawn)),
        b'@' => Some(one_of(TEXTS, drawn)),
        b'~' => Some(one_of(FIELDS, drawn)),
        _ => None,
    }
}

// Adds a form in which the signs are filled in, for the node of this number.
fn add_form(
    random: &mut StdRng,
    text: &mut Vec<u8>,
    form: &[u8],
    node: usize,
) -> Result<(), AllocError> {
    for sign in form {
        match filled(*sign, node, drawn(random)) {
            Some(word) => text.extend_from_slice(word)?,
            None => text.push(*sign)?,
        }
    }
    Ok(())
}

// A random query, whose first statement is the one of this number.
fn random_query(alloc: Global, random: &mut StdRng, number: usize) -> Result<Vec<u8>, AllocError> {
    let mut text = Vec::from_slice(alloc, RELATIONS)?;
    let second = one_of(STATEMENTS, drawn(random));
    let output = one_of(OUTPUTS, drawn(random));
    add_form(random, &mut text, one_of(STATEMENTS, number), 3)?;
    add_form(random, &mut text, second, 4)?;
    add_form(random, &mut text, output, 4)?;
    Ok(text)
}

// A random file with this header, and at most so many records of a form.
fn random_file(
    alloc: Global,
    random: &mut StdRng,
    header: &[u8],
    record: &[u8],
    most: usize,
) -> Result<Vec<u8>, AllocError> {
    let mut text = Vec::from_slice(alloc, header)?;
    let records = drawn(random) % most.saturating_add(1).max(1);
    for _record in 0..records {
        add_form(random, &mut text, record, 0)?;
    }
    Ok(text)
}

// Whether the run of a random query over random files answers as `plain` does.
fn is_answered(alloc: Global, random: &mut StdRng, number: usize) -> Result<bool, Fail> {
    let query = random_query(alloc, random, number)?;
    let first = random_file(alloc, random, b"k,x,t\n", b"%,%,~\n", 2)?;
    let second = random_file(alloc, random, b"k,x,t\n", b"%,%,~\n", 2)?;
    let third = random_file(alloc, random, b"k,x,t\n", b"%,%,~\n", 2)?;
    let joined = random_file(alloc, random, b"k,w\n", b"%,%\n", 2)?;
    let files: [(&str, &[u8]); 5] = [
        ("q.txt", query.as_slice()),
        ("n0.csv", first.as_slice()),
        ("n1.csv", second.as_slice()),
        ("n2.csv", third.as_slice()),
        ("w.csv", joined.as_slice()),
    ];
    let mut folder = folder_of(alloc, &files, &[])?;
    let ran = taped_run(alloc, &mut folder)?;
    Ok(ran.status == 0 && is_printed(alloc, &mut folder)?)
}

#[test]
fn random_queries_are_answered_as_plain_does(rt: HostRuntime) -> Result<(), Fail> {
    let mut random = StdRng::seed_from_u64(20);
    for number in 0..30 {
        assert!(rt; is_answered(rt.alloc(), &mut random, number)?, "{number}");
    }
    Ok(())
}
