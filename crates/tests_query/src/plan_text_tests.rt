//! The text of a plan.
use crate::query_graph_tests::graph_of;
use places::{check_places, plan_text};
use rewrites::rewrite;
use std::alloc::Global;
use std::test::Fail;
use trust_sets::derive_trust;

const CREDIT: &[u8] = b"relation people of 1 rows 4 (ssn num, zip text)
relation scores2 of 2 rows 3 (ssn num trust 1, score num)
relation scores3 of 3 rows 3 (ssn num trust 1, score num)
scores = concat scores2 scores3
joined = join people scores on ssn at most 6
byzip = group joined by zip (total = sum score, n = count)
output byzip to 1";

const CREDIT_PLAN: &[u8] = b"people relation rows 4 place clear 1 and 0 know 1 ssn 1 zip 1
scores2 relation rows 3 place clear 2 and 0 know 12 ssn 12 score 2
scores3 relation rows 3 place clear 3 and 0 know 13 ssn 13 score 3
scores concat rows 6 place split 2 3 and 0 know 1 ssn 1 score -
joined join rows 6 place hybrid 1 and 170 know 1 ssn 1 zip 1 score -
byzip group rows 6 place hybrid 1 and 1110 know 1 zip 1 total - n 1
output byzip to 1 rows 6 and 18
total and 1298
";

// The same with declared rows as in a real study.
const LARGE_CREDIT: &[u8] = b"relation people of 1 rows 2000 (ssn num, zip text)
relation scores2 of 2 rows 1000 (ssn num trust 1, score num)
relation scores3 of 3 rows 1000 (ssn num trust 1, score num)
scores = concat scores2 scores3
joined = join people scores on ssn at most 2000
byzip = group joined by zip (total = sum score, n = count)
output byzip to 1";

// Each operator over sources that are clear at one party, split, joint, and split with a joint part; joins and groups with
// a party's help and without; bounds, also on parts; selects that are up.
const OPERATORS: &[u8] = b"relation a of 1 rows 2 (x num trust 3, y num)
relation b of 2 rows 3 (x num trust 1 3, y num)
relation e of 1 rows 4 (x num, y num)
c = concat a b
k = concat a e
d = distinct c
m = concat d c
w = select b (x, z = y)
fa = filter a where x > 1 at most 1
fc = filter c where x > 1
fm = filter m where x > 1 and y != 2
sm = select m (x, z = x * y)
ja = join a e on x, y
js = join a b on x, y
jh = join a w on x at most 5
jv = join a w on x via 3
ga = group k by x (n = count)
gh = group c by x (n = count)
gv = group c by x (n = count) via 3
gp = group c by x (n = count) parts at most 1 at most 2
gs = group c by y (n = count) parts at most 2
gw = group c (n = count, t = sum y)
da = distinct k
fl = filter m where x > 1 at most 7 clear at 3
jl = join m d on x, y clear at 2
gl = group d by x (n = count) clear at 1
dl = distinct c clear at 3
su = select d (x, y, z = x + 1)
tu = select su (u = z, x, y)
output k to 2
output c to 1 3
output gp to 1 2 3
output tu to 3";

// What the second reading of the rules in `bench/places` gives of it.
const OPERATORS_PLAN: &[u8] = b"a relation rows 2 place clear 1 and 0 know 13 x 13 y 1
b relation rows 3 place clear 2 and 0 know 123 x 123 y 2
e relation rows 4 place clear 1 and 0 know 1 x 1 y 1
c concat rows 5 place split 1 2 and 0 know 13 x 13 y -
k concat rows 6 place clear 1 and 0 know 1 x 1 y 1
d distinct rows 5 place shared and 450 know - x - y -
m concat rows 10 place split s 1 2 and 0 know - x - y -
w select rows 3 place clear 2 and 0 know 123 x 123 z 2
fa filter rows 1 place clear 1 and 0 know 13 x 13 y 1
fc filter rows 5 place split 1 2 and 0 know 13 x 13 y -
fm filter rows 10 place split s 1 2 and 105 know - x - y -
sm select rows 10 place split s 1 2 and 4415 know - x - z -
ja join rows 8 place clear 1 and 0 know 1 x 1 y 1
js join rows 6 place shared and 96 know - x - y -
jh join rows 5 place hybrid 1 and 125 know 13 x 13 y 1 z -
jv join rows 6 place hybrid 3 and 145 know 13 x 13 y 1 z -
ga group rows 6 place clear 1 and 0 know 1 x 1 n 1
gh group rows 5 place hybrid 1 and 500 know 13 x 13 n 13
gv group rows 5 place hybrid 3 and 500 know 13 x 13 n 13
gp group rows 2 place hybrid 1 parts 1 2 and 240 know 13 x 13 n 13
gs group rows 5 place shared parts 1 2 and 700 know - y - n -
gw group rows 1 place shared and 190 know 13 n 13 t -
da distinct rows 6 place clear 1 and 0 know 1 x 1 y 1
fl filter rows 7 place clear 3 and 10 know - x - y -
jl join rows 50 place clear 2 and 20 know - x - y -
gl group rows 5 place clear 1 and 10 know - x - n -
dl distinct rows 5 place clear 3 and 0 know - x - y -
su select rows 5 place up and 0 know - x - y - z -
tu select rows 5 place up and 0 know - u - x - y -
output k to 2 rows 6 and 0
output c to 13 rows 5 and 10
output gp to 123 rows 2 and 4
output tu to 3 rows 5 and 10
total and 7530
";

fn plan_of(alloc: Global, text: &[u8]) -> Result<Vec<u8>, Fail> {
    let graph = graph_of(alloc, text)?;
    let trust = derive_trust(alloc, &graph)?;
    let rewritten = rewrite(alloc, &graph)?;
    let places = check_places(alloc, &graph, &trust, &rewritten)?;
    Ok(plan_text(alloc, &graph, &trust, &rewritten, &places)?)
}

#[test]
fn credit_study_has_its_plan(rt: HostRuntime) -> Result<(), Fail> {
    assert!(rt; plan_of(rt.alloc(), CREDIT)?.as_slice() == CREDIT_PLAN);
    Ok(())
}

#[test]
fn large_credit_study_ends_with_its_sum(rt: HostRuntime) -> Result<(), Fail> {
    assert!(rt; plan_of(rt.alloc(), LARGE_CREDIT)?.ends_with(b"\ntotal and 1108000\n"));
    Ok(())
}

#[test]
fn operators_have_the_places_that_their_sources_leave(rt: HostRuntime) -> Result<(), Fail> {
    assert!(rt; plan_of(rt.alloc(), OPERATORS)?.as_slice() == OPERATORS_PLAN);
    Ok(())
}
