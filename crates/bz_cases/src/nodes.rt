//! Nodes.

use crate::cut_rows::{CutRow, cuts};
use crate::texts::{
    ALONE, GATE, MIXED, NO_BLOCK, NO_MASTER, NOTHING, ONE, PAIR, PART, RAISED, STEPS, THREE,
    THREE_LOW, TWO, TWO_BLOCKS, W_APART, X_APART,
};
use crate::wanted::{Place, is_at, split_of, unfit};
use crate::{are_cuts_of, is_ready, region};
use bz_cut::Mode;
use bz_event::{NodeAnswer, NodeTask, Solved, TaskName, TaskStop};
use bz_node::solve_node;
use bz_tree::Leaf;
use std::test::Fail;

/// The numbers of a leaf.
#[derive(Clone, Copy)]
struct LeafNumbers {
    lambda: &'static [(u32, i128)],
    delta: i128,
    bound: i128,
}

/// What is wanted of a node.
#[derive(Clone, Copy)]
enum Wanted {
    Split {
        position: u32,
        value: i128,
        leaf: Option<LeafNumbers>,
    },
    Empty {
        leaf: LeafNumbers,
    },
    Point {
        den: i128,
        x: &'static [i128],
        eta: &'static [i128],
        leaf: Option<LeafNumbers>,
    },
    Stop(Place),
}

/// The node of the box between the ends over the cuts, and all its right answers.
#[derive(Clone, Copy)]
struct Node {
    model: &'static [u8],
    part: &'static [u8],
    lower: &'static [i128],
    upper: &'static [i128],
    cuts: &'static [CutRow],
    mode: Mode,
    wanted: &'static [Wanted],
}

const NODES: &[Node] = &[
    // A root.
    Node {
        model: ONE,
        part: X_APART,
        lower: &[0],
        upper: &[1],
        cuts: &[
            CutRow {
                block: 1,
                alpha: &[0],
                p0: 1,
                beta: 0,
            },
            CutRow {
                block: 1,
                alpha: &[-6],
                p0: 1,
                beta: -3,
            },
        ],
        mode: Mode::Cost,
        wanted: &[Wanted::Split {
            position: 0,
            value: 0,
            leaf: Some(LeafNumbers {
                lambda: &[(2, 2), (3, 1)],
                delta: 3,
                bound: 3,
            }),
        }],
    },
    // Its left side.
    Node {
        model: ONE,
        part: X_APART,
        lower: &[0],
        upper: &[0],
        cuts: &[
            CutRow {
                block: 1,
                alpha: &[0],
                p0: 1,
                beta: 0,
            },
            CutRow {
                block: 1,
                alpha: &[-6],
                p0: 1,
                beta: -3,
            },
        ],
        mode: Mode::Cost,
        wanted: &[Wanted::Point {
            den: 1,
            x: &[0],
            eta: &[3],
            leaf: Some(LeafNumbers {
                lambda: &[(0, 4), (3, 1)],
                delta: 1,
                bound: 3,
            }),
        }],
    },
    // Its right side.
    Node {
        model: ONE,
        part: X_APART,
        lower: &[1],
        upper: &[1],
        cuts: &[
            CutRow {
                block: 1,
                alpha: &[0],
                p0: 1,
                beta: 0,
            },
            CutRow {
                block: 1,
                alpha: &[-6],
                p0: 1,
                beta: -3,
            },
        ],
        mode: Mode::Cost,
        wanted: &[Wanted::Point {
            den: 1,
            x: &[1],
            eta: &[0],
            leaf: Some(LeafNumbers {
                lambda: &[(1, 2), (2, 1)],
                delta: 1,
                bound: 2,
            }),
        }],
    },
    // An infeasible box.
    Node {
        model: ONE,
        part: X_APART,
        lower: &[1],
        upper: &[0],
        cuts: &[
            CutRow {
                block: 1,
                alpha: &[0],
                p0: 1,
                beta: 0,
            },
            CutRow {
                block: 1,
                alpha: &[-6],
                p0: 1,
                beta: -3,
            },
        ],
        mode: Mode::Cost,
        wanted: &[Wanted::Empty {
            leaf: LeafNumbers {
                lambda: &[(0, 1), (1, 1)],
                delta: 0,
                bound: 1,
            },
        }],
    },
    // The same without a cost.
    Node {
        model: ONE,
        part: X_APART,
        lower: &[1],
        upper: &[0],
        cuts: &[],
        mode: Mode::Point,
        wanted: &[Wanted::Empty {
            leaf: LeafNumbers {
                lambda: &[(0, 1), (1, 1)],
                delta: 0,
                bound: 1,
            },
        }],
    },
    // A point without a cost.
    Node {
        model: ONE,
        part: X_APART,
        lower: &[0],
        upper: &[1],
        cuts: &[CutRow {
            block: 1,
            alpha: &[-3],
            p0: 0,
            beta: -3,
        }],
        mode: Mode::Point,
        wanted: &[Wanted::Point {
            den: 1,
            x: &[1],
            eta: &[0],
            leaf: None,
        }],
    },
    // A fraction without a cost.
    Node {
        model: ONE,
        part: X_APART,
        lower: &[0],
        upper: &[1],
        cuts: &[
            CutRow {
                block: 1,
                alpha: &[-3],
                p0: 0,
                beta: -2,
            },
            CutRow {
                block: 1,
                alpha: &[3],
                p0: 0,
                beta: 2,
            },
        ],
        mode: Mode::Point,
        wanted: &[Wanted::Split {
            position: 0,
            value: 0,
            leaf: None,
        }],
    },
    // Two blocks and a cut without an eta.
    Node {
        model: GATE,
        part: TWO_BLOCKS,
        lower: &[0],
        upper: &[1],
        cuts: &[
            CutRow {
                block: 1,
                alpha: &[0],
                p0: 1,
                beta: 0,
            },
            CutRow {
                block: 2,
                alpha: &[0],
                p0: 1,
                beta: 0,
            },
            CutRow {
                block: 1,
                alpha: &[-1],
                p0: 0,
                beta: -1,
            },
        ],
        mode: Mode::Cost,
        wanted: &[Wanted::Point {
            den: 1,
            x: &[1],
            eta: &[0, 0],
            leaf: Some(LeafNumbers {
                lambda: &[(2, 1), (3, 1), (4, 1)],
                delta: 1,
                bound: 1,
            }),
        }],
    },
    // Cuts without a point between.
    Node {
        model: GATE,
        part: TWO_BLOCKS,
        lower: &[0],
        upper: &[1],
        cuts: &[
            CutRow {
                block: 1,
                alpha: &[0],
                p0: 1,
                beta: 0,
            },
            CutRow {
                block: 2,
                alpha: &[0],
                p0: 1,
                beta: 0,
            },
            CutRow {
                block: 1,
                alpha: &[-2],
                p0: 0,
                beta: -3,
            },
        ],
        mode: Mode::Cost,
        wanted: &[Wanted::Empty {
            leaf: LeafNumbers {
                lambda: &[(0, 2), (4, 1)],
                delta: 0,
                bound: 1,
            },
        }],
    },
    // The second integer column, below 0.
    Node {
        model: TWO,
        part: W_APART,
        lower: &[-9, -9],
        upper: &[-2, 9],
        cuts: &[
            CutRow {
                block: 1,
                alpha: &[0, 0],
                p0: 2,
                beta: 1,
            },
            CutRow {
                block: 1,
                alpha: &[0, 2],
                p0: 0,
                beta: -7,
            },
        ],
        mode: Mode::Cost,
        wanted: &[Wanted::Split {
            position: 1,
            value: -4,
            leaf: Some(LeafNumbers {
                lambda: &[(2, 4), (5, 1), (6, 3)],
                delta: 2,
                bound: -16,
            }),
        }],
    },
    // A row of the master.
    Node {
        model: TWO,
        part: W_APART,
        lower: &[1, 0],
        upper: &[9, 9],
        cuts: &[CutRow {
            block: 1,
            alpha: &[0, 0],
            p0: 1,
            beta: 4,
        }],
        mode: Mode::Cost,
        wanted: &[Wanted::Point {
            den: 1,
            x: &[1, 4],
            eta: &[-4],
            leaf: Some(LeafNumbers {
                lambda: &[(0, 3), (2, 5), (5, 1)],
                delta: 1,
                bound: -14,
            }),
        }],
    },
    // An equality and a column that is no integer.
    Node {
        model: MIXED,
        part: W_APART,
        lower: &[-5],
        upper: &[5],
        cuts: &[CutRow {
            block: 1,
            alpha: &[0, 0],
            p0: 1,
            beta: 0,
        }],
        mode: Mode::Cost,
        wanted: &[Wanted::Split {
            position: 0,
            value: -1,
            leaf: Some(LeafNumbers {
                lambda: &[(1, 2), (2, 5), (6, 4)],
                delta: 4,
                bound: -13,
            }),
        }],
    },
    // A point with a denominator.
    Node {
        model: MIXED,
        part: W_APART,
        lower: &[0],
        upper: &[5],
        cuts: &[CutRow {
            block: 1,
            alpha: &[0, 0],
            p0: 3,
            beta: -1,
        }],
        mode: Mode::Cost,
        wanted: &[Wanted::Point {
            den: 3,
            x: &[0, 3],
            eta: &[1],
            leaf: Some(LeafNumbers {
                lambda: &[(0, 6), (5, 15), (6, 1)],
                delta: 3,
                bound: -5,
            }),
        }],
    },
    // No master columns.
    Node {
        model: ALONE,
        part: NO_MASTER,
        lower: &[],
        upper: &[],
        cuts: &[CutRow {
            block: 1,
            alpha: &[],
            p0: 2,
            beta: -7,
        }],
        mode: Mode::Cost,
        wanted: &[Wanted::Point {
            den: 2,
            x: &[],
            eta: &[7],
            leaf: Some(LeafNumbers {
                lambda: &[(0, 1)],
                delta: 2,
                bound: 7,
            }),
        }],
    },
    // No blocks.
    Node {
        model: PAIR,
        part: NO_BLOCK,
        lower: &[-4, -9],
        upper: &[9, 9],
        cuts: &[],
        mode: Mode::Cost,
        wanted: &[Wanted::Split {
            position: 1,
            value: 6,
            leaf: Some(LeafNumbers {
                lambda: &[(0, 3), (2, 10)],
                delta: 2,
                bound: -55,
            }),
        }],
    },
    // A model without rows and columns.
    Node {
        model: NOTHING,
        part: NO_BLOCK,
        lower: &[],
        upper: &[],
        cuts: &[],
        mode: Mode::Cost,
        wanted: &[Wanted::Point {
            den: 1,
            x: &[],
            eta: &[],
            leaf: Some(LeafNumbers {
                lambda: &[],
                delta: 1,
                bound: 0,
            }),
        }],
    },
    // A wide pivot.
    Node {
        model: ONE,
        part: X_APART,
        lower: &[100000000000000000000000000000000000000],
        upper: &[150000000000000000000000000000000000000],
        cuts: &[CutRow {
            block: 1,
            alpha: &[0],
            p0: 1,
            beta: 0,
        }],
        mode: Mode::Cost,
        wanted: &[Wanted::Stop(Place::Pivot {
            row: 0,
            pivot_row: 1,
            column: 4,
        })],
    },
    // A wide common denominator.
    Node {
        model: STEPS,
        part: W_APART,
        lower: &[0, 0],
        upper: &[1, 1],
        cuts: &[
            CutRow {
                block: 1,
                alpha: &[0, 0],
                p0: 1,
                beta: 0,
            },
            CutRow {
                block: 1,
                alpha: &[99999999999999999999, 0],
                p0: 0,
                beta: 1,
            },
            CutRow {
                block: 1,
                alpha: &[0, 100000000000000000001],
                p0: 0,
                beta: 1,
            },
        ],
        mode: Mode::Cost,
        wanted: &[Wanted::Stop(Place::Den { place: 1 })],
    },
    // A wide sum of the leaf.
    Node {
        model: THREE,
        part: NO_BLOCK,
        lower: &[0, 0, -100000000000000000000000000000000000000],
        upper: &[
            86000000000000000000000000000000000000,
            86000000000000000000000000000000000000,
            -50000000000000000000000000000000000000,
        ],
        cuts: &[],
        mode: Mode::Cost,
        wanted: &[Wanted::Stop(Place::Fold { list: 8, at: 0 })],
    },
    // A wide sum of the value.
    Node {
        model: THREE_LOW,
        part: NO_BLOCK,
        lower: &[0, 0, -100000000000000000000000000000000000000],
        upper: &[
            86000000000000000000000000000000000000,
            86000000000000000000000000000000000000,
            100000000000000000000000000000000000000,
        ],
        cuts: &[],
        mode: Mode::Cost,
        wanted: &[Wanted::Stop(Place::Fold { list: 1, at: 0 })],
    },
    // A wide sum of the objective.
    Node {
        model: RAISED,
        part: NO_BLOCK,
        lower: &[20000000000000000000000000000000000000],
        upper: &[20000000000000000000000000000000000000],
        cuts: &[],
        mode: Mode::Cost,
        wanted: &[Wanted::Stop(Place::Fold { list: 2, at: 0 })],
    },
    // A wide right side of the master.
    Node {
        model: PART,
        part: NO_BLOCK,
        lower: &[0],
        upper: &[5],
        cuts: &[],
        mode: Mode::Cost,
        wanted: &[Wanted::Stop(Place::Fold { list: 3, at: 0 })],
    },
];

fn is_leaf(leaf: &Leaf, wanted: &LeafNumbers) -> bool {
    leaf.lambda.as_slice() == wanted.lambda
        && leaf.delta == wanted.delta
        && leaf.bound == wanted.bound
}

fn has_leaf(leaf: &Option<Leaf>, wanted: &Option<LeafNumbers>) -> bool {
    match (leaf, wanted) {
        (Some(leaf), Some(numbers)) => is_leaf(leaf, numbers),
        (None, None) => true,
        _ => false,
    }
}

fn is_answer(answer: &NodeAnswer, wanted: &Wanted) -> bool {
    match (answer, wanted) {
        (
            NodeAnswer::Split {
                position,
                value,
                leaf,
                ..
            },
            Wanted::Split {
                position: first,
                value: below,
                leaf: numbers,
            },
        ) => *position == *first && *value == *below && has_leaf(leaf, numbers),
        (NodeAnswer::Empty { leaf }, Wanted::Empty { leaf: numbers }) => is_leaf(leaf, numbers),
        (
            NodeAnswer::Point { point, leaf },
            Wanted::Point {
                den,
                x,
                eta,
                leaf: numbers,
            },
        ) => {
            point.den == *den
                && point.x.as_slice() == *x
                && point.eta.as_slice() == *eta
                && has_leaf(leaf, numbers)
        },
        _ => false,
    }
}

/// Whether node 3 over 5 cuts came to what is wanted.
fn is_wanted(found: &Result<Solved<NodeAnswer>, TaskStop>, wanted: &Wanted) -> bool {
    let task = TaskName::Node { node: 3, front: 5 };
    match (found, wanted) {
        (Err(TaskStop::Wide(stopped)), Wanted::Stop(place)) => {
            stopped.task == task && is_at(&stopped.answer, *place)
        },
        (Ok(solved), _) => {
            solved.task == task && solved.point.is_none() && is_answer(&solved.answer, wanted)
        },
        _ => false,
    }
}

#[test]
fn nodes_come_to_their_answers(rt: HostRuntime) -> Result<(), Fail> {
    let alloc = rt.alloc();
    for (at, case) in NODES.iter().enumerate() {
        let split = split_of(alloc, case.model, case.part)?;
        let task = NodeTask {
            node: 3,
            front: 5,
            region: region(alloc, &split, case.lower, case.upper).map_err(unfit)?,
            cuts: cuts(alloc, case.cuts)?,
            mode: case.mode,
        };
        if task.cuts.as_slice().len() > 100 || !are_cuts_of(&split, task.cuts.as_slice()) {
            return Err(Fail::from("the cuts don't fit"));
        }
        if !is_ready(&split, task.cuts.as_slice(), case.mode) {
            return Err(Fail::from("a block has no floor"));
        }
        let found = solve_node(alloc, &split, &task);
        let right = case.wanted.iter().any(|wanted| is_wanted(&found, wanted));
        assert!(rt; right, "at {at}");
    }
    Ok(())
}
