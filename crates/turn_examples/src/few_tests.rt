//! Lists of few turns by number, and names with numbers.
use std::test::Fail;
use turn_lists::{Actor, FewLists, Turn, spelled_turns};
use turn_policies::{Named, Numbered};

/// Two cores with 2 and 1 accesses, and the first one's buffer with 3.
static GREATEST: [Turn; 3] = [
    Turn {
        actor: Actor::Core(0),
        count: 2,
    },
    Turn {
        actor: Actor::Core(1),
        count: 1,
    },
    Turn {
        actor: Actor::Buffer(0),
        count: 3,
    },
];

/// A number, and the text of its list.
struct Row {
    number: u64,
    text: &'static str,
}

/// There are 6,077 lists: 1, 6, 22, 84, 314, 1,188 and 4,462 of no turn to six.
static ROWS: [Row; 12] = [
    Row {
        number: 0,
        text: "-",
    },
    Row {
        number: 1,
        text: "0*1",
    },
    Row {
        number: 3,
        text: "1*1",
    },
    Row {
        number: 6,
        text: "w0*3",
    },
    Row {
        number: 7,
        text: "0*1,1*1",
    },
    Row {
        number: 8,
        text: "0*1,w0*1",
    },
    Row {
        number: 13,
        text: "0*2,w0*2",
    },
    Row {
        number: 30,
        text: "0*1,1*1,0*2",
    },
    Row {
        number: 1000,
        text: "1*1,w0*2,0*1,w0*3,0*2",
    },
    Row {
        number: 5000,
        text: "w0*2,0*2,1*1,0*2,w0*2,0*2",
    },
    Row {
        number: 6076,
        text: "w0*3,1*1,w0*3,1*1,w0*3,1*1",
    },
    Row {
        number: 6077,
        text: "-",
    },
];

#[test]
fn each_number_has_its_list(rt: HostRuntime) -> Result<(), Fail> {
    let lists = FewLists::new(rt.alloc(), &GREATEST)?;
    for row in &ROWS {
        let list = lists.list(rt.alloc(), row.number)?;
        let text = spelled_turns(rt.alloc(), list.as_slice())?;
        assert!(rt; text.as_str() == row.text, "list {}", row.number);
    }
    Ok(())
}

#[test]
fn names_and_numbers_mean_runs(rt: HostRuntime) {
    assert_eq!(rt; Named::All.numbered(6), Numbered::Few(3));
    assert_eq!(rt; Named::All.numbered(7), Numbered::Ranked(4, 0));
    assert_eq!(rt; Named::Mixed.numbered(8), Numbered::Walk(2));
    assert_eq!(rt; Named::Mixed.numbered(5), Numbered::Ranked(2, 1));
    assert_eq!(rt; Named::Ranked(9).numbered(5), Numbered::Ranked(9, 5));
}
