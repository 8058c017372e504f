//! Places and AND words of two queries that a script made from a seed, against `bench/place_values.py`.
use crate::places_tests::{first_other_node, first_other_sum};
use places::Place;
use std::test::Fail;

const TEXT_9: &[u8] = b"relation n0 of 1 rows 3 (x num trust 1, y num trust 1)
relation n1 of 2 rows 1 (x num trust 2 3, y num)
relation n2 of 3 rows 4 (x num trust 1, y num trust 1)
relation n3 of 1 rows 5 (x num, y num trust 3)
n4 = concat n0 n2
n5 = select n2 (x = y, y = x)
n6 = select n3 (x, y = x + y)
n7 = distinct n4
n8 = concat n1 n2
n9 = concat n0 n1
n10 = filter n1 where x <= 1
n11 = filter n6 where x == y and y < 3
n12 = join n8 n0 on x, y
n13 = concat n11 n4
n14 = select n2 (x = y, y = x)
n15 = filter n9 where x == y and y < 3
n16 = group n15 (x = sum x, y = count)
n17 = group n7 by x, y (n = count)
n18 = group n7 (x = sum x, y = count)
n19 = group n14 (x = sum x, y = count)
output n16 to 1
output n18 to 1
output n19 to 1";

const NODES_9: &[(Place, u64)] = &[
    (Place::Clear(1), 0),
    (Place::Clear(2), 0),
    (Place::Clear(3), 0),
    (Place::Clear(1), 0),
    (Place::Split, 0),
    (Place::Clear(3), 0),
    (Place::Clear(1), 0),
    (Place::Shared, 882),
    (Place::Split, 0),
    (Place::Split, 0),
    (Place::Clear(2), 0),
    (Place::Clear(1), 0),
    (Place::Shared, 240),
    (Place::Split, 0),
    (Place::Clear(3), 0),
    (Place::Split, 0),
    (Place::Shared, 152),
    (Place::Hybrid(1), 735),
    (Place::Shared, 266),
    (Place::Clear(3), 0),
];

const TEXT_18: &[u8] = b"relation n0 of 1 rows 4 (x num trust 2 3, y num trust 1)
relation n1 of 2 rows 4 (x num trust 2 3, y num trust 3)
relation n2 of 3 rows 3 (x num trust 1, y num trust 1)
relation n3 of 1 rows 5 (x num trust 1, y num trust 3)
n4 = concat n1 n2
n5 = select n4 (x = y, y = x)
n6 = group n1 by x, y (n = count)
n7 = select n2 (x = y, y = x)
n8 = group n5 by x (y = sum y)
n9 = select n7 (x, y = x * y)
n10 = select n5 (x, y = x - y)
n11 = join n10 n7 on x, y
n12 = distinct n7
n13 = select n4 (x, y = x - y)
n14 = group n11 (x = sum x, y = count)
n15 = concat n7 n8
n16 = concat n10 n15
n17 = group n7 by x, y (n = count) via 3
n18 = concat n14 n5
n19 = distinct n14
output n16 to 1
output n18 to 1
output n19 to 1";

const NODES_18: &[(Place, u64)] = &[
    (Place::Clear(1), 0),
    (Place::Clear(2), 0),
    (Place::Clear(3), 0),
    (Place::Clear(1), 0),
    (Place::Split, 0),
    (Place::Split, 0),
    (Place::Clear(2), 0),
    (Place::Clear(3), 0),
    (Place::Hybrid(3), 700),
    (Place::Clear(3), 0),
    (Place::Split, 0),
    (Place::Hybrid(3), 544),
    (Place::Clear(3), 0),
    (Place::Split, 0),
    (Place::Shared, 798),
    (Place::Split, 0),
    (Place::Split, 0),
    (Place::Clear(3), 0),
    (Place::Split, 0),
    (Place::Shared, 18),
];

#[test]
fn seeded_queries_are_as_the_script(rt: HostRuntime) -> Result<(), Fail> {
    let alloc = rt.alloc();
    assert_eq!(rt; first_other_node(alloc, TEXT_9, NODES_9)?, None);
    assert_eq!(rt; first_other_node(alloc, TEXT_18, NODES_18)?, None);
    assert_eq!(rt;
        first_other_sum(alloc, &[(TEXT_9, Ok(2279)), (TEXT_18, Ok(2112))])?,
        None
    );
    Ok(())
}
