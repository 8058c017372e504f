use conclave_top::conclave;
use outside::{MemoryFolder, MemorySink};
use std::alloc::{AllocError, Global};
use std::test::Fail;

pub(crate) const PEOPLE: &[u8] = b"ssn,zip\n100,02139\n101,02139\n102,94110\n103,10001\n";

pub(crate) const SCORES2: &[u8] = b"ssn,score\n100,700\n101,650\n102,600\n";

pub(crate) const SCORES3: &[u8] = b"ssn,score\n100,710\n102,640\n999,500\n";

/// Credit scores by zip code: what three files of three owners say together.
pub(crate) const SCORES: &[u8] = b"relation people of 1 rows 4 (ssn num, zip text)
relation scores2 of 2 rows 3 (ssn num trust 1, score num)
relation scores3 of 3 rows 3 (ssn num trust 1, score num)
scores = concat scores2 scores3
joined = join people scores on ssn
byzip = group joined by zip (total = sum score, n = count)
output byzip to 1
";

/// The same with a bound.
pub(crate) const BOUNDED: &[u8] = b"relation people of 1 rows 4 (ssn num, zip text)
relation scores2 of 2 rows 3 (ssn num trust 1, score num)
relation scores3 of 3 rows 3 (ssn num trust 1, score num)
scores = concat scores2 scores3
joined = join people scores on ssn at most 6
byzip = group joined by zip (total = sum score, n = count)
output byzip to 1
";

/// Two relations and two outputs, which stand the other way round.
pub(crate) const PAIR: &[u8] = b"relation a of 1 rows 2 (x num)
relation b of 2 rows 2 (x num)
output b to 3
output a to 1 2
";

pub(crate) const FAULT: &[u8] = b"outside fault\n";

/// The calls that are to fail: of the folder, of the output, of the stream for errors.
pub(crate) type Failing<'a> = (&'a [u64], &'a [u64], &'a [u64]);

/// What a run left: its status, the output, the stream for errors, and the names that were called, each with a blank.
#[derive(Drop)]
pub(crate) struct Run {
    pub status: u8,
    pub out: Vec<u8>,
    pub err: Vec<u8>,
    pub calls: String,
}

/// Whether a run ended with this status and left this output, this line and these calls.
pub(crate) fn is_left(run: &Run, status: u8, out: &[u8], line: &[u8], calls: &str) -> bool {
    run.status == status
        && run.out.as_slice() == out
        && run.err.as_slice() == line
        && run.calls.as_str() == calls
}

pub(crate) fn words_of(alloc: Global, words: &[&str]) -> Result<Vec<String>, AllocError> {
    let mut owned = Vec::new(alloc);
    for word in words {
        owned.push(String::from_str(alloc, word)?)?;
    }
    Ok(owned)
}

pub(crate) fn folder_of(
    alloc: Global,
    files: &[(&str, &[u8])],
    failing: &[u64],
) -> Result<MemoryFolder, AllocError> {
    let mut owned = Vec::new(alloc);
    for (name, bytes) in files {
        let name = String::from_str(alloc, name)?;
        owned.push((name, Vec::from_slice(alloc, bytes)?))?;
    }
    MemoryFolder::new(alloc, owned, Vec::from_slice(alloc, failing)?)
}

pub(crate) fn names_called(alloc: Global, folder: &MemoryFolder) -> Result<String, AllocError> {
    let mut calls = String::new(alloc);
    for name in folder.calls() {
        calls.push_str(name.as_str())?;
        calls.push(' ')?;
    }
    Ok(calls)
}

pub(crate) fn run_words(
    alloc: Global,
    words: &[&str],
    files: &[(&str, &[u8])],
    failing: Failing<'_>,
) -> Result<Run, Fail> {
    let words = words_of(alloc, words)?;
    let mut folder = folder_of(alloc, files, failing.0)?;
    let mut out = MemorySink::new(alloc, Vec::from_slice(alloc, failing.1)?);
    let mut err = MemorySink::new(alloc, Vec::from_slice(alloc, failing.2)?);
    let status = conclave(alloc, &words, &mut folder, &mut out, &mut err);
    let calls = names_called(alloc, &folder)?;
    let (out, err) = (out.bytes().clone()?, err.bytes().clone()?);
    Ok(Run {
        status,
        out,
        err,
        calls,
    })
}

/// `plain` of a query over the files a, b, people, scores2 and scores3.
pub(crate) fn plain<'x>(
    alloc: Global,
    query: &'x [u8],
    a: &'x [u8],
    b: &'x [u8],
) -> Result<Run, Fail> {
    let files: [(&str, &'x [u8]); 6] = [
        ("q.txt", query),
        ("a.csv", a),
        ("b.csv", b),
        ("people.csv", PEOPLE),
        ("scores2.csv", SCORES2),
        ("scores3.csv", SCORES3),
    ];
    run_words(alloc, &["plain", "q.txt"], &files, (&[], &[], &[]))
}

// A query, the files of a and b, what is printed, and the names that are called.
type Answer = (
    &'static [u8],
    &'static [u8],
    &'static [u8],
    &'static [u8],
    &'static str,
);

const ANSWERS: &[Answer] = &[
    (
        SCORES,
        b"",
        b"",
        b"byzip\nzip,total,n\n02139,2060,3\n94110,1240,2\n",
        "q.txt people.csv scores2.csv scores3.csv ",
    ),
    (
        PAIR,
        b"x\n5\n4\n",
        b"x\n7\n",
        b"b\nx\n7\na\nx\n4\n5\n",
        "q.txt a.csv b.csv ",
    ),
    (
        b"relation a of 1 rows 3 (x num, y num)\nf = filter a where x >= 2 and y != 9\noutput f to 1",
        b"x,y\n2,9\n1,8\n2,7\n",
        b"",
        b"f\nx,y\n2,7\n",
        "q.txt a.csv ",
    ),
    (
        b"relation a of 1 rows 2 (x num)\ng = group a (s = sum x)\noutput g to 1\n",
        b"x\n18446744073709551615\n2\n",
        b"",
        b"g\ns\n1\n",
        "q.txt a.csv ",
    ),
    (
        b"relation a of 1 rows 2 (x num)\ng = group a (s = sum x, n = count)\noutput g to 1\n",
        b"x\n",
        b"",
        b"g\ns,n\n",
        "q.txt a.csv ",
    ),
    (
        b"relation a of 1 rows 4 (k num)\nj = join a a on k\noutput j to 1\n",
        b"k\n7\n7\n9\n",
        b"",
        b"j\nk\n7\n7\n7\n7\n9\n",
        "q.txt a.csv ",
    ),
    (
        b"relation a of 1 rows 3 (z num)\noutput a to 1\n",
        b"z\n02139\n18446744073709551615\n",
        b"",
        b"a\nz\n2139\n18446744073709551615\n",
        "q.txt a.csv ",
    ),
    (
        b"relation a of 1 rows 3 (t text)\noutput a to 1\n",
        b"\xef\xbb\xbft\r\n\"ab,cdefg\"\r\n\"\"\r\n",
        b"",
        b"a\nt\n\"\"\n\"ab,cdefg\"\n",
        "q.txt a.csv ",
    ),
    (
        b"relation a of 1 rows 2 (x num)\nrelation b of 2 rows 2 (x num)\nc = concat a b\nd = distinct c\ns = select d (x, y = x * 3)\noutput s to 3\n",
        b"x\n5\n7\n",
        b"x\n7\n9\n",
        b"s\nx,y\n5,15\n7,21\n9,27\n",
        "q.txt a.csv b.csv ",
    ),
    (
        b"relation a of 1 rows 4 (k num, v num)\ng = group a by k (l = least v, m = greatest v, n = count)\noutput g to 1\n",
        b"k,v\n2,5\n1,8\n2,3\n2,9\n",
        b"",
        b"g\nk,l,m,n\n1,8,8,1\n2,3,9,3\n",
        "q.txt a.csv ",
    ),
    (
        b"relation a of 1 rows 3 (t text)\ns = select a (t, is = t == \"m\", less = t < \"m\")\noutput s to 1\n",
        b"t\nm\nab\nx\n",
        b"",
        b"s\nt,is,less\nab,0,1\nm,1,0\nx,0,0\n",
        "q.txt a.csv ",
    ),
    (
        b"relation a of 1 rows 2 (x num)\ns = select a (y = x - 3, z = x + 18446744073709551615)\noutput s to 1\n",
        b"x\n2\n5\n",
        b"",
        b"s\ny,z\n2,4\n18446744073709551615,1\n",
        "q.txt a.csv ",
    ),
];

// The first of the cases that prints something else.
fn first_other_answer(alloc: Global, cases: &[Answer]) -> Result<Option<usize>, Fail> {
    for (index, (query, a, b, want, calls)) in cases.iter().enumerate() {
        if !is_left(&plain(alloc, query, a, b)?, 0, want, b"", calls) {
            return Ok(Some(index));
        }
    }
    Ok(None)
}

#[test]
fn prints_the_answers_of_every_statement(rt: HostRuntime) -> Result<(), Fail> {
    assert_eq!(rt; first_other_answer(rt.alloc(), ANSWERS)?, None);
    Ok(())
}

// Queries, each with the line that refuses it.
const REFUSALS: &[(&[u8], &[u8])] = &[
    (b"output", b"refused: Q1 line 1 column 7: text\n"),
    (b"# nothing\n\x80", b"refused: Q1 line 2 column 1: text\n"),
    (
        b"relation a of 1 rows 2 (x num)\noutput b to 1\n",
        b"refused: Q2 line 2: b is unknown\n",
    ),
    (
        b"relation a of 1 rows 2 (x num)\nrelation a of 2 rows 2 (x num)\n",
        b"refused: Q3 line 2: a is taken\n",
    ),
    (
        b"relation a of 1 rows 2 (x num)\nf = filter a where x == \"2\"\n",
        b"refused: Q4 line 2: kind\n",
    ),
    (
        b"relation a of 1 rows 2 (x num)\nrelation b of 1 rows 2 (y num)\nc = concat a b\n",
        b"refused: Q5 line 3: shape\n",
    ),
    (
        b"relation a of 1 rows 65536 (k num, v num)\nrelation b of 2 rows 2 (k num, w num)\nj = join a b on k\n",
        b"refused: Q6 line 3: size\n",
    ),
    (b"", b"refused: Q10: no output\n"),
    (
        b"relation b of 1 rows 2 (k num, v num)\nrelation a of 2 rows 2 (k num trust 1, s num)\nf = filter a where s > 5\nj = join b f on k via 1\noutput j to 2\n",
        b"refused: Q8 line 4: party 1 isn't trusted with k of f\n",
    ),
    (
        b"relation r of 2 rows 2 (x num) release 2\nd = distinct r at most 1\noutput r to 1\n",
        b"refused: Q9 line 3: party 1 isn't in the release set of r\n",
    ),
    (BOUNDED, b"refused: not built line 5\n"),
    (
        b"relation a of 1 rows 2 (x num)\ng = group a by x (n = count) parts at most 1\nd = distinct a at most 1\noutput d to 1\n",
        b"refused: not built line 2\n",
    ),
    (
        b"relation a of 1 rows 2 (x num)\nf = filter a where x > 2 at most 3\n",
        b"refused: Q10: no output\n",
    ),
];

// The first of the queries that isn't refused so.
fn first_other_refusal(alloc: Global, cases: &[(&[u8], &[u8])]) -> Result<Option<usize>, Fail> {
    for (index, (query, line)) in cases.iter().enumerate() {
        if !is_left(
            &plain(alloc, query, b"x\n1\n", b"")?,
            2,
            b"",
            line,
            "q.txt ",
        ) {
            return Ok(Some(index));
        }
    }
    Ok(None)
}

#[test]
fn refuses_a_query_in_one_line(rt: HostRuntime) -> Result<(), Fail> {
    assert_eq!(rt; first_other_refusal(rt.alloc(), REFUSALS)?, None);
    Ok(())
}
