use crate::query_text_tests::QUERY;
use query_text::{Query, ReadFault, print_query, read_query};
use rand::rngs::StdRng;
use rand::{RngExt, SeedableRng};
use std::alloc::{AllocError, Global};
use std::test::Fail;

// What the query of a text is printed as.
fn reprinted(alloc: Global, text: &[u8]) -> Result<Vec<u8>, ReadFault> {
    let query = read_query(alloc, text)?;
    Ok(print_query(alloc, &query)?)
}

// Texts, each with its one spelling.
const SPELLINGS: &[(&[u8], &[u8])] = &[
    (b"", b""),
    (b"\n \t\n# nothing\r\n", b""),
    (b"output n to 1", b"output n to 1\n"),
    (
        b"\toutput  n\tto 01 2   003 # all\r\n",
        b"output n to 1 2 3\n",
    ),
    (
        b"\n\noutput b to 2\n#\noutput a to 1",
        b"output b to 2\noutput a to 1\n",
    ),
    (
        b"relation r of 2 rows 0007(x num,y text)",
        b"relation r of 2 rows 7 (x num, y text)\n",
    ),
    (
        b"relation r of 1 rows 18446744073709551615( x num trust 1 02 3 , y text trust 2 )release 1 3",
        b"relation r of 1 rows 18446744073709551615 (x num trust 1 2 3, y text trust 2) release 1 3\n",
    ),
    (b"f=filter r where x==00", b"f = filter r where x == 0\n"),
    (
        b"f=filter r where 10<=x and y!=\"a # b\"and true==false",
        b"f = filter r where 10 <= x and y != \"a # b\" and true == false\n",
    ),
    (
        b"f=filter r where x<y and x>y and x>=\"\"at most 05 clear at 2",
        b"f = filter r where x < y and x > y and x >= \"\" at most 5 clear at 2\n",
    ),
    (
        b"f=filter r where x<y clear at 3",
        b"f = filter r where x < y clear at 3\n",
    ),
    (b"s=select r(x)", b"s = select r (x)\n"),
    (
        b"s=select r(x,y=x,z=x*03,w=x+y,v=x-y,u=f&g,t=f|g,q=x<=y)clear at 3",
        b"s = select r (x, y = x, z = x * 3, w = x + y, v = x - y, u = f & g, t = f | g, q = x <= y) clear at 3\n",
    ),
    (b"c=concat r r", b"c = concat r r\n"),
    (b"c=concat a b c d e f g h", b"c = concat a b c d e f g h\n"),
    (b"j=join a b on x", b"j = join a b on x\n"),
    (
        b"j=join a b on x,y at most 6 via 1",
        b"j = join a b on x, y at most 6 via 1\n",
    ),
    (
        b"j=join a b on x clear at 2",
        b"j = join a b on x clear at 2\n",
    ),
    (b"g=group a(n=count)", b"g = group a (n = count)\n"),
    (
        b"g=group a by x,y(n=count,s=sum z,l=least z,m=greatest z)parts at most 4 at most 5 via 2",
        b"g = group a by x, y (n = count, s = sum z, l = least z, m = greatest z) parts at most 4 at most 5 via 2\n",
    ),
    (
        b"g=group a by x(n=count)at most 5 clear at 1",
        b"g = group a by x (n = count) at most 5 clear at 1\n",
    ),
    (
        b"d=distinct a at most 50 clear at 1",
        b"d = distinct a at most 50 clear at 1\n",
    ),
];

// The first of the texts that is printed in another way.
fn first_other(alloc: Global, spellings: &[(&[u8], &[u8])]) -> Result<Option<usize>, ReadFault> {
    for (index, (text, spelling)) in spellings.iter().enumerate() {
        if reprinted(alloc, text)?.as_slice() != *spelling {
            return Ok(Some(index));
        }
    }
    Ok(None)
}

#[test]
fn each_form_has_one_spelling(rt: HostRuntime) -> Result<(), Fail> {
    assert_eq!(rt; first_other(rt.alloc(), SPELLINGS)?, None);
    Ok(())
}

// Whether the query of a text has so many statements, and is printed as one with the same statements, line after line.
fn is_read_back(alloc: Global, text: &[u8], count: usize) -> Result<bool, ReadFault> {
    let query = read_query(alloc, text)?;
    let spelling = print_query(alloc, &query)?;
    let again = read_query(alloc, &spelling)?;
    Ok(query.statements.len() == count && are_same(&again, &query))
}

// Whether two queries have the same statements, the first one on a line for each.
fn are_same(new: &Query, old: &Query) -> bool {
    if new.statements.len() != old.statements.len() {
        return false;
    }
    let pairs = new
        .statements
        .as_slice()
        .iter()
        .zip(old.statements.as_slice());
    for (place, (new, old)) in pairs.enumerate() {
        if new.line as usize != place + 1 || new.body != old.body {
            return false;
        }
    }
    true
}

#[test]
fn a_printed_query_is_read_back(rt: HostRuntime) -> Result<(), Fail> {
    let alloc = rt.alloc();
    assert_eq!(rt; reprinted(alloc, QUERY)?.as_slice(), QUERY);
    assert!(rt; is_read_back(alloc, QUERY, 7)?);
    Ok(())
}

// The forms of statements: a part in brackets may be left out, and capital letters stand for words
// of a kind.
const FORMS: &[&[u8]] = &[
    b"relation N of P rows K ( N T [ trust S ] [ , N T [ trust S ] [ , N T ] ] ) [ release S ]",
    b"N = filter N where X C X [ and X C X [ and X C X ] ] [ at most K ] [ clear at P ]",
    b"N = select N ( N [ = X [ O X ] ] [ , N [ = X [ O X ] ] [ , N ] ] ) [ clear at P ]",
    b"N = concat N N [ N N [ N N ] ] [ N ]",
    b"N = join N N on N [ , N ] [ at most K ] [ via P ]",
    b"N = group N [ by N [ , N ] ] ( N = A N [ , N = count ] ) [ parts at most K ] [ at most K ] [ via P ]",
    b"N = distinct N [ at most K ] [ clear at P ]",
    b"output N to S",
];

const NAMES: [&[u8]; 5] = [
    b"people",
    b"_",
    b"x1",
    b"relations",
    b"aaaaaaaaaaaaaaaaaaaaaaaaaaaaaaaa",
];

const NUMBERS: [&[u8]; 5] = [b"7", b"0", b"000", b"0042", b"18446744073709551615"];

const OPERANDS: [&[u8]; 6] = [
    b"true",
    b"false",
    b"\"\"",
    b"\"a # (b), c\"",
    b"score",
    b"010",
];

// The words of a kind; none where the letter names no kind.
fn words_of(letter: u8) -> &'static [&'static [u8]] {
    match letter {
        b'N' => &NAMES,
        b'K' => &NUMBERS,
        b'X' => &OPERANDS,
        b'P' => &[b"1", b"2", b"003"],
        b'S' => &[b"1", b"2", b"3", b"1 2", b"1\t03", b"2 3", b"1 2 3"],
        b'T' => &[b"num", b"text"],
        b'A' => &[b"sum", b"least", b"greatest"],
        b'C' => &[b"==", b"!=", b"<", b"<=", b">", b">="],
        b'O' => &[b"+", b"-", b"*", b"&", b"|", b"==", b">="],
        _ => &[],
    }
}

fn one_of<'a>(random: &mut StdRng, words: &[&'a [u8]]) -> &'a [u8] {
    let index = random.random_range(0usize..840);
    if words.is_empty() {
        return b"";
    }
    words[index % words.len()]
}

// Adds a random statement of a form, with blanks of any kind between its words.
fn add_statement(random: &mut StdRng, text: &mut Vec<u8>, form: &[u8]) -> Result<(), AllocError> {
    let mut left_out: usize = 0;
    for word in form.split(|b| *b == b' ') {
        let first = word.first().copied().unwrap_or(b' ');
        if first == b']' {
            left_out = left_out.saturating_sub(1);
        } else if left_out > 0 || (first == b'[' && random.random_range(0u8..2) == 0) {
            left_out = left_out.saturating_add(usize::from(first == b'['));
        } else if first != b'[' {
            let written = one_of(random, words_of(first));
            text.extend_from_slice(if written.is_empty() { word } else { written })?;
            text.extend_from_slice(one_of(random, &[b" ", b"\t", b"  "]))?;
        }
    }
    text.extend_from_slice(one_of(random, &[b"\n", b"\r\n", b"# \"\r\n", b"\n\n#\n"]))
}

// A random text with two statements of each form.
fn random_text(alloc: Global, random: &mut StdRng) -> Result<Vec<u8>, AllocError> {
    let mut text = Vec::new(alloc);
    for form in FORMS {
        add_statement(random, &mut text, form)?;
        add_statement(random, &mut text, form)?;
    }
    Ok(text)
}

#[test]
fn random_queries_are_read_back(rt: HostRuntime) -> Result<(), Fail> {
    let mut random = StdRng::seed_from_u64(11);
    for _query in 0..25 {
        let text = random_text(rt.alloc(), &mut random)?;
        assert!(rt; is_read_back(rt.alloc(), &text, 16)?, "{text:?}");
    }
    Ok(())
}

// Adds `s=select r(x,x,..,x)` with so many items.
fn add_select(text: &mut Vec<u8>, count: usize) -> Result<(), AllocError> {
    text.extend_from_slice(b"s=select r(x")?;
    for _item in 1..count {
        text.extend_from_slice(b",x")?;
    }
    text.extend_from_slice(b")\n")
}

// 64 lines of 1,024 bytes, each of which is printed as 1,532 bytes.
fn largest_text(alloc: Global) -> Result<Vec<u8>, AllocError> {
    let mut text = Vec::new(alloc);
    for _statement in 0..64 {
        add_select(&mut text, 506)?;
    }
    Ok(text)
}

#[test]
fn the_largest_text_is_read_and_printed(rt: HostRuntime) -> Result<(), Fail> {
    let text = largest_text(rt.alloc())?;
    assert_eq!(rt; text.len(), 65536);
    let spelling = reprinted(rt.alloc(), &text)?;
    assert_eq!(rt; spelling.len(), 98048);
    let fault = read_query(rt.alloc(), &spelling).err();
    assert_eq!(rt; fault, Some(ReadFault::Text { line: 0, column: 0 }));
    Ok(())
}
