//! Which graph a query has.
use crate::query_graph_refusal_tests::{RELATIONS, behind};
use query_graph::{
    Aggregate, Graph, GraphFault, Item, Node, Operand, Operator, Output, Parties, Test, build,
    names_are_numbers,
};
use query_text::{Cmp, Op, ReadFault, read_query};
use std::alloc::Global;
use std::test::Fail;
use words::Kind;

// The graph of a text.
pub(crate) fn graph_of(alloc: Global, text: &[u8]) -> Result<Graph, GraphFault> {
    match read_query(alloc, text) {
        Ok(query) => build(alloc, &query),
        Err(ReadFault::Text { line, column: _ }) => Err(GraphFault::Kind { line }),
        Err(ReadFault::Memory) => Err(GraphFault::Memory),
    }
}

// Whether a node has this name, line and number of rows, and columns of these names, where a name that begins
// with `z` is that of a text.
fn is_node(node: &Node, name: &[u8], line: u32, rows: u32, columns: &[&[u8]]) -> bool {
    let mut same = node.name.bytes() == name && node.line == line && node.rows == rows;
    same = same && node.columns.len() == columns.len();
    for (column, name) in node.columns.as_slice().iter().zip(columns) {
        same = same && column.name.bytes() == *name;
        same = same && matches!(column.kind, Kind::Text) == name.starts_with(b"z");
    }
    same
}

fn is_relation(node: Option<&Node>, owner: u8, trusted: &[Parties]) -> bool {
    match node {
        Some(
            Node {
                shape: Operator::Relation(r),
                ..
            },
        ) => { r.owner == owner && r.trusted.as_slice() == trusted && r.release == Parties::none() }
        _ => false,
    }
}

fn is_concat(node: Option<&Node>, sources: &[u32]) -> bool {
    match node {
        Some(
            Node {
                shape: Operator::Concat(c),
                ..
            },
        ) => c.sources.as_slice() == sources,
        _ => false,
    }
}

fn is_join(node: Option<&Node>, left: u32, right: u32, keys: &[(u32, u32)], most: u32) -> bool {
    match node {
        Some(
            Node {
                shape: Operator::Join(j),
                ..
            },
        ) => {
            j.left == left
                && j.right == right
                && j.keys.as_slice() == keys
                && j.at_most == Some(most)
                && j.via.is_none()
                && j.clear_at.is_none()
        }
        _ => false,
    }
}

fn is_group(node: Option<&Node>, source: u32, keys: &[u32], aggregates: &[Aggregate]) -> bool {
    match node {
        Some(
            Node {
                shape: Operator::Group(g),
                ..
            },
        ) => {
            g.source == source
                && g.keys.as_slice() == keys
                && g.aggregates.as_slice() == aggregates
                && g.at_most.is_none()
                && g.parts_at_most.is_none()
                && g.via.is_none()
                && g.clear_at.is_none()
        }
        _ => false,
    }
}

fn is_select(node: Option<&Node>, source: u32, items: &[Item]) -> bool {
    match node {
        Some(
            Node {
                shape: Operator::Select(s),
                ..
            },
        ) => { s.source == source && s.items.as_slice() == items && s.clear_at.is_none() }
        _ => false,
    }
}

fn is_filter(node: Option<&Node>, source: u32, tests: &[Test], clear_at: u8) -> bool {
    match node {
        Some(
            Node {
                shape: Operator::Filter(f),
                ..
            },
        ) => { f.source == source && f.tests.as_slice() == tests && f.clear_at == Some(clear_at) }
        _ => false,
    }
}

const STUDY: &[u8] = b"relation people of 1 rows 4 (ssn num, zip text)
relation scores2 of 2 rows 3 (ssn num trust 1, score num)
relation scores3 of 3 rows 3 (ssn num trust 1, score num)
scores = concat scores2 scores3
joined = join people scores on ssn at most 6
byzip = group joined by zip (total = sum score, n = count)
output byzip to 1
";

// The nodes of the study: the name, line and number of rows of each, and the names of its columns.
const NODES: &[(&[u8], u32, u32, &[&[u8]])] = &[
    (b"people", 1, 4, &[b"ssn", b"zip"]),
    (b"scores2", 2, 3, &[b"ssn", b"score"]),
    (b"scores3", 3, 3, &[b"ssn", b"score"]),
    (b"scores", 4, 6, &[b"ssn", b"score"]),
    (b"joined", 5, 6, &[b"ssn", b"zip", b"score"]),
    (b"byzip", 6, 6, &[b"zip", b"total", b"n"]),
];

fn are_nodes(nodes: &[Node], wanted: &[(&[u8], u32, u32, &[&[u8]])]) -> bool {
    for (node, (name, line, rows, columns)) in nodes.iter().zip(wanted) {
        if !is_node(node, name, *line, *rows, columns) {
            return false;
        }
    }
    nodes.len() == wanted.len()
}

fn have_relations(nodes: &[Node]) -> bool {
    let none = Parties::none();
    let one = none.with(1);
    is_relation(nodes.get(0), 1, &[none, none])
        && is_relation(nodes.get(1), 2, &[one, none])
        && is_relation(nodes.get(2), 3, &[one, none])
}

fn have_operators(nodes: &[Node]) -> bool {
    is_concat(nodes.get(3), &[1, 2])
        && is_join(nodes.get(4), 0, 3, &[(0, 0)], 6)
        && is_group(
            nodes.get(5),
            4,
            &[1],
            &[Aggregate::Sum(2), Aggregate::Count],
        )
}

#[test]
fn a_query_has_its_graph(rt: HostRuntime) -> Result<(), Fail> {
    let graph = graph_of(rt.alloc(), STUDY)?;
    assert!(rt; are_nodes(graph.nodes(), NODES));
    assert!(rt; have_relations(graph.nodes()));
    assert!(rt; have_operators(graph.nodes()));
    let output = Output {
        line: 7,
        node: 5,
        recipients: Parties::none().with(1),
    };
    assert!(rt; graph.outputs().as_slice() == [output].as_slice());
    names_are_numbers();
    Ok(())
}

const TEXTS: &[u8] = b"relation a of 1 rows 4 (k num, z text)
s = select a (z, x = 7, y = \"02139\", f = k <= 3, g = true | false)
t = filter s where f == g and z != \"\" clear at 2
output t to 2
";

const ITEMS: &[Item] = &[
    Item::Plain(Operand::Column(1)),
    Item::Plain(Operand::Constant(7)),
    Item::Plain(Operand::Constant(0x3032313339000000)),
    Item::Computed {
        left: Operand::Column(0),
        op: Op::Compare(Cmp::Le),
        right: Operand::Constant(3),
    },
    Item::Computed {
        left: Operand::Constant(1),
        op: Op::Or,
        right: Operand::Constant(0),
    },
];

const TESTS: &[Test] = &[
    Test {
        left: Operand::Column(3),
        cmp: Cmp::Eq,
        right: Operand::Column(4),
    },
    Test {
        left: Operand::Column(0),
        cmp: Cmp::Ne,
        right: Operand::Constant(0),
    },
];

#[test]
fn items_and_tests_have_numbers(rt: HostRuntime) -> Result<(), Fail> {
    let graph = graph_of(rt.alloc(), TEXTS)?;
    assert!(rt; is_select(graph.nodes().get(1), 0, ITEMS));
    assert!(rt; is_filter(graph.nodes().get(2), 1, TESTS, 2));
    Ok(())
}

// Nodes behind the relations, each with its number of rows.
const BOUNDS: &[(&[u8], u32)] = &[
    (b"n = filter b where k == 1", 5),
    (b"n = filter b where k == 1 at most 3", 3),
    (b"n = filter b where k == 1 at most 30", 5),
    (b"n = select b (k)", 5),
    (b"n = concat a a", 8),
    (b"n = join a b on k", 20),
    (b"n = join a b on k at most 7 via 2", 7),
    (b"n = group b by k (c = count)", 5),
    (b"n = group b by k (c = count) parts at most 1", 3),
    (b"n = group b by k (c = count) parts at most 2", 5),
    (
        b"n = group b by k (c = count) parts at most 1 at most 2 via 3",
        2,
    ),
    (b"n = group b (c = count) clear at 1", 1),
    (b"n = distinct b at most 2 clear at 3", 2),
];

// The number of rows of the node behind the relations.
fn rows_of(alloc: Global, text: &[u8]) -> Result<u32, GraphFault> {
    let text = behind(alloc, RELATIONS, text, b"\noutput n to 1 3")?;
    let graph = graph_of(alloc, &text)?;
    match graph.nodes().get(2) {
        Some(node) => Ok(node.rows),
        None => Ok(0),
    }
}

// The first of the nodes with another number of rows.
fn first_other(alloc: Global, cases: &[(&[u8], u32)]) -> Result<Option<usize>, GraphFault> {
    for (index, (text, rows)) in cases.iter().enumerate() {
        if rows_of(alloc, text)? != *rows {
            return Ok(Some(index));
        }
    }
    Ok(None)
}

#[test]
fn rows_go_by_bounds(rt: HostRuntime) -> Result<(), Fail> {
    assert_eq!(rt; first_other(rt.alloc(), BOUNDS)?, None);
    Ok(())
}

// Whether a set has each of the parties, and whether it has a number that is none.
fn members(set: Parties) -> [bool; 4] {
    [
        set.contains(1),
        set.contains(2),
        set.contains(3),
        set.contains(0) || set.contains(4) || set.contains(255),
    ]
}

#[test]
fn sets_have_the_parties_put_in(rt: HostRuntime) {
    let one_three = Parties::none().with(1).with(3);
    let two_three = Parties::none().with(3).with(2).with(3);
    for (set, want) in [
        (Parties::none(), [false, false, false, false]),
        (one_three, [true, false, true, false]),
        (two_three, [false, true, true, false]),
        (one_three.meet(two_three), [false, false, true, false]),
        (one_three.either(two_three), [true, true, true, false]),
    ] {
        assert_eq!(rt; members(set), want, "in {set:?}");
    }
    assert_eq!(rt; one_three, Parties::none().with(3).with(1));
}

#[test]
fn a_set_lists_its_members(rt: HostRuntime) -> Result<(), Fail> {
    let set = Parties::none().with(3).with(1);
    let members = set.members(rt.alloc())?;
    assert_eq!(rt; members.as_slice(), [1, 3].as_slice());
    assert_eq!(rt; set.least(), Some(1));
    assert!(rt; Parties::none().is_empty());
    Ok(())
}
