// Gives lists of choices to three machines and prints their rows: the monitor, guarded moves on the graph sheet, bounded moves on the sheet
// that the build filled. On sheets of the second version they set out by the starts, with each budget; all take one handler's cost.
// Rests on build, lent, reader, walk. The monitor here is plain code of its own, which finds completions by itself.
#![tactic(auto)]

ghost use Rattle.std.specs.Prelude.{◌<◌, ◌≤◌, length};

use base::answer;
use build::build;
use lent::{
    bounded_move_in_place, guarded_move_in_place, start_bounded_in_place, start_guarded_in_place,
};
use reader::edge_words;
use std::io;
use walk::{End, Walk};

/// Eight blocks with two branches, within 8 cycles.
const SHEET: [u16; 37] = [
    8, 9, 8, 0, 1, 0, 0, 2, 2, 1, 4, 4, 5, 1, 6, 1, 8, 5, 9, 3, 0, 4, 3, 5, 0, 6, 0, 6, 0, 7, 7, 8,
    0, 2, 0, 2, 0,
];

/// The same within 5 cycles and within 9, in the second version.
const TWO: [u16; 40] = [
    0, 8, 9, 2, 5, 9, 0, 1, 0, 0, 2, 2, 1, 4, 4, 5, 1, 6, 1, 8, 5, 9, 3, 0, 4, 3, 5, 0, 6, 0, 6, 0,
    7, 7, 8, 0, 2, 0, 2, 0,
];

/// A loop whose body costs 3 cycles, within 2, 3, 7 and 9 cycles: nothing fits the first.
const FOUR: [u16; 20] = [0, 3, 3, 4, 2, 3, 7, 9, 0, 1, 0, 0, 3, 2, 3, 0, 3, 3, 2, 0];

/// The loop within 7 cycles and within 8, with one start copy for both.
const SHARED: [u16; 18] = [0, 3, 3, 2, 7, 8, 0, 1, 0, 0, 3, 2, 3, 0, 3, 3, 2, 0];

// A GRAPH SHEET by its words: the first version begins with its blocks, the second with 0

/// More than any cost of these sheets.
const NONE: u16 = 65535;

/// A graph sheet and what a handler takes of each budget.
#[derive(Clone, Copy)]
struct Graph<'a> {
    words: &'a [u16],
    handler: u16,
}

/// An edge's target, and the edge behind it in its chain, 0 for none.
#[derive(Clone, Copy)]
struct Edge {
    target: u16,
    next: u16,
}

impl Graph<'_> {
    /// A word, 0 behind the last.
    fn word(self, place: usize) -> u16 {
        self.words.get(place).copied().unwrap_or(0)
    }

    fn is_second(self) -> bool {
        self.word(0) == 0
    }

    fn blocks(self) -> u16 {
        self.word(if self.is_second() { 1 } else { 0 })
    }

    /// The word two before the records.
    fn front(self) -> usize
        ensures { result < 65538 }
    {
        if self.is_second() {
            return 2 + self.word(3) as usize;
        }
        1
    }

    /// The budget with a number, less what the handler takes of it.
    fn budget(self, number: u16) -> u16 {
        let place = if self.is_second() {
            3 + number as usize
        } else {
            2
        };
        self.word(place).saturating_sub(self.handler)
    }

    fn cost(self, block: u16) -> u16 {
        self.word(self.front() + 2 * block as usize)
    }

    fn first_edge(self, block: u16) -> u16 {
        self.word(self.front() + 2 * block as usize + 1)
    }

    fn edge(self, edge: u16) -> Edge {
        let place = self.front() + 2 * self.blocks() as usize + 2 * edge as usize;
        Edge {
            target: self.word(place),
            next: self.word(place + 1),
        }
    }

    /// The target of a block's edge with this number, from 1 on.
    fn target(self, block: u16, choice: u16) -> Option<u16> {
        let mut edge = self.first_edge(block);
        for number in 1..choice as usize + 1 {
            if edge == 0 {
                return None;
            }
            let record = self.edge(edge);
            if number == choice as usize {
                return Some(record.target);
            }
            edge = record.next;
        }
        None
    }

    /// What a block costs with the cheapest of its successors, as they stand in the row.
    fn by_successors(self, row: &[u16; 9], block: u16) -> u16 {
        let mut best = NONE;
        let mut edge = self.first_edge(block);
        for _ in 0..512 {
            if edge == 0 {
                return best;
            }
            let record = self.edge(edge);
            best = best.min(self.cost(block).saturating_add(cost_in(row, record.target)));
            edge = record.next;
        }
        best
    }

    /// The cheapest completion of each of up to eight blocks, found from the sheet alone: after as many rounds none gets cheaper.
    fn cheapest(self) -> [u16; 9] {
        let mut row = [NONE; 9];
        row[2] = 0;
        for _ in 0..8 {
            for block in 1..9 {
                if block != 2 {
                    row[block] = self.by_successors(&row, block as u16);
                }
            }
        }
        row
    }
}

/// A cost of a row, and none behind it.
fn cost_in(row: &[u16; 9], block: u16) -> u16 {
    row.get(block as usize).copied().unwrap_or(NONE)
}

// THE MACHINES, each on its walk

/// What answers choices, one after another, on a walk.
trait Machine {
    /// The answer to a choice.
    fn step(&mut self, choice: u16) -> u16;

    /// The walk behind the choices so far.
    fn walk(&self) -> Walk;

    /// The block that it shows.
    fn block(&self) -> u16;
}

/// The monitor, with the cheapest completion of each block at hand.
#[derive(Drop)]
struct Monitor<'a> {
    graph: Graph<'a>,
    completions: [u16; 9],
    walk: Walk,
}

impl Monitor<'_> {
    /// It sets out with a budget: diverted where that is below the cheapest completion of block 1.
    fn set_out(&mut self, budget: u16) {
        self.walk.budget = budget;
        if self.graph.budget(budget) < cost_in(&self.completions, 1) {
            self.walk.end = End::Diverted;
        }
    }
}

impl Machine for Monitor<'_> {
    fn step(&mut self, choice: u16) -> u16 {
        if self.walk.end != End::Going {
            return 32;
        }
        let target = match self.graph.target(self.walk.place, choice) {
            Some(target) => target,
            None => return 31,
        };
        let least = self
            .walk
            .count
            .saturating_add(cost_in(&self.completions, target));
        if self.graph.budget(self.walk.budget) < least {
            self.walk.end = End::Diverted;
            return 0;
        }
        self.walk.place = target;
        self.walk.count = self.walk.count.saturating_add(self.graph.cost(target));
        if target == 2 {
            self.walk.end = End::Exit;
        }
        0
    }

    fn walk(&self) -> Walk {
        self.walk
    }

    fn block(&self) -> u16 {
        self.walk.place
    }
}

/// Guarded moves on the graph sheet, with a work area.
#[derive(Drop)]
struct Guarded<'a> {
    graph: Graph<'a>,
    area: &'a mut [u8],
    walk: Walk,
}

impl Guarded<'_> {
    /// The answer of its start with a budget.
    fn set_out(&mut self, budget: u16) -> u16 {
        answer(&start_guarded_in_place(
            self.graph.words,
            self.graph.handler,
            self.area,
            &mut self.walk,
            budget,
        ))
    }
}

impl Machine for Guarded<'_> {
    fn step(&mut self, choice: u16) -> u16 {
        answer(&guarded_move_in_place(
            self.graph.words,
            self.graph.handler,
            self.area,
            &mut self.walk,
            choice,
        ))
    }

    fn walk(&self) -> Walk {
        self.walk
    }

    fn block(&self) -> u16 {
        self.walk.place
    }
}

/// Bounded moves on a bounded sheet.
#[derive(Drop)]
struct Bounded<'a> {
    sheet: &'a [u16],
    walk: Walk,
}

impl Bounded<'_> {
    /// The answer of its start with a budget.
    fn set_out(&mut self, budget: u16) -> u16 {
        answer(&start_bounded_in_place(self.sheet, &mut self.walk, budget))
    }
}

impl Machine for Bounded<'_> {
    fn step(&mut self, choice: u16) -> u16 {
        answer(&bounded_move_in_place(self.sheet, &mut self.walk, choice))
    }

    fn walk(&self) -> Walk {
        self.walk
    }

    /// That of the copy at its place.
    fn block(&self) -> u16 {
        let place = 3 * self.walk.place as usize;
        let word = |place: usize| self.sheet.get(place).copied().unwrap_or(0);
        if word(0) == 0 {
            return word(2 * word(3) as usize + place + 1);
        }
        word(place)
    }
}

// THE ROWS

/// The block that a walk shows, its count, and its end as 0 going, 1 exit, 2 diverted.
fn print_end(rt: &impl Print, block: u16, walk: Walk) -> io::Result<()> {
    println!(rt; " : {} {} {}", block, walk.count, u16::from(walk.end))
}

/// A machine's answers to some choices, and its walk behind them.
fn print_machine<M: Machine>(
    rt: &impl Print,
    name: &str,
    machine: &mut M,
    choices: &[u16],
) -> io::Result<()> {
    print!(rt; "{}", name)?;
    for &choice in choices {
        let answer = machine.step(choice);
        print!(rt; " {}", answer)?;
    }
    print_end(rt, machine.block(), machine.walk())
}

/// The three machines.
#[derive(Drop)]
struct Machines<'a> {
    monitor: Monitor<'a>,
    guarded: Guarded<'a>,
    bounded: Bounded<'a>,
}

impl<'a> Machines<'a> {
    fn new(graph: Graph<'a>, area: &'a mut [u8], sheet: &'a [u16]) -> Machines<'a> {
        let walk = Walk::start();
        Machines {
            monitor: Monitor {
                graph,
                completions: graph.cheapest(),
                walk,
            },
            guarded: Guarded { graph, area, walk },
            bounded: Bounded { sheet, walk },
        }
    }

    /// All three stand at the starting walk.
    fn begin(&mut self) {
        let walk = Walk::start();
        self.monitor.walk = walk;
        self.guarded.walk = walk;
        self.bounded.walk = walk;
    }

    /// All three set out with a budget; the answers of the two starts are printed.
    fn set_out(&mut self, rt: &impl Print, budget: u16) -> io::Result<()> {
        self.begin();
        self.monitor.set_out(budget);
        let guarded = self.guarded.set_out(budget);
        let bounded = self.bounded.set_out(budget);
        println!(rt; "budget {} : {} {}", budget, guarded, bounded)
    }

    /// One list: its choices, a row for each machine, and the targets of the copy at which the bounded walk stands.
    fn print_list(&mut self, rt: &impl Print, choices: &[u16]) -> io::Result<()> {
        print!(rt; "choices")?;
        for &choice in choices {
            print!(rt; " {}", choice)?;
        }
        println!(rt)?;
        print_machine(rt, "monitor", &mut self.monitor, choices)?;
        print_machine(rt, "guarded", &mut self.guarded, choices)?;
        print_machine(rt, "bounded", &mut self.bounded, choices)?;
        print_targets(rt, self.bounded.sheet, self.bounded.walk.place)
    }

    /// A list from the starting walk.
    fn print_from_start(&mut self, rt: &impl Print, choices: &[u16]) -> io::Result<()> {
        self.begin();
        self.print_list(rt, choices)
    }

    /// A list with a budget.
    fn print_with_budget(
        &mut self,
        rt: &impl Print,
        budget: u16,
        choices: &[u16],
    ) -> io::Result<()> {
        self.set_out(rt, budget)?;
        self.print_list(rt, choices)
    }
}

/// The targets of a copy, from its edge words.
fn print_targets(rt: &impl Print, sheet: &[u16], copy: u16) -> io::Result<()> {
    let mut answer = 0u16;
    let words = edge_words(sheet, copy, &mut answer);
    print!(rt; "targets")?;
    for target in words.iter().step_by(2) {
        print!(rt; " {}", *target)?;
    }
    println!(rt)
}

// FROM THE STARTING WALK

fn print_first(rt: &impl Print) -> io::Result<()> {
    let mut area = [7u8; 80];
    let mut sheet = [0u16; 40];
    let _ = build(&SHEET, 0, &mut area, &mut sheet);
    let graph = Graph {
        words: &SHEET,
        handler: 0,
    };
    let mut machines = Machines::new(graph, &mut area, &sheet);
    // no choice
    machines.print_from_start(rt, &[])?;
    // a choice of 0, one too large, and one that there is
    machines.print_from_start(rt, &[0, 2, 1])?;
    // a path of cost exactly 8, and a choice after the end
    machines.print_from_start(rt, &[1, 2, 1, 1, 1, 1])?;
    // a path of cost 9: diverted at the first branch from which it can no longer finish, and choices after the end
    machines.print_from_start(rt, &[1, 1, 1, 2, 1, 1])?;
    // a path of cost 5
    machines.print_from_start(rt, &[1, 1, 1, 1, 1])?;
    // the first choice again and again, until the walk has ended: on a built sheet within the most moves of any walk
    let mut bounded = Bounded {
        sheet: &sheet,
        walk: Walk::start(),
    };
    for _ in 0..Walk::MOST_MOVES {
        bounded.step(1);
    }
    print!(rt; "first choices")?;
    print_end(rt, bounded.block(), bounded.walk())
}

// BY THE STARTS

/// A path of cost 8 within 5 and within 9.
fn print_two(rt: &impl Print) -> io::Result<()> {
    let mut area = [7u8; 80];
    let mut sheet = [0u16; 74];
    let _ = build(&TWO, 0, &mut area, &mut sheet);
    let graph = Graph {
        words: &TWO,
        handler: 0,
    };
    let mut machines = Machines::new(graph, &mut area, &sheet);
    for budget in 1..3 {
        machines.print_with_budget(rt, budget, &[1, 2, 1, 1, 1])?;
    }
    Ok(())
}

/// Turn after turn of the loop: within 2 cycles, which divert before the first choice, and within 3, 7 and 9.
fn print_four(rt: &impl Print) -> io::Result<()> {
    let mut area = [7u8; 30];
    let mut sheet = [0u16; 51];
    let _ = build(&FOUR, 0, &mut area, &mut sheet);
    let graph = Graph {
        words: &FOUR,
        handler: 0,
    };
    let mut machines = Machines::new(graph, &mut area, &sheet);
    for budget in 1..5 {
        machines.print_with_budget(rt, budget, &[1, 1, 1, 2])?;
    }
    Ok(())
}

/// Two turns and the exit, within 7 cycles and within 8; a third budget the sheet does not have.
fn print_shared(rt: &impl Print) -> io::Result<()> {
    let mut area = [7u8; 27];
    let mut sheet = [0u16; 30];
    let _ = build(&SHARED, 0, &mut area, &mut sheet);
    let graph = Graph {
        words: &SHARED,
        handler: 0,
    };
    let mut machines = Machines::new(graph, &mut area, &sheet);
    for budget in 1..3 {
        machines.print_with_budget(rt, budget, &[1, 1, 2, 1])?;
    }
    machines.set_out(rt, 3)
}

// WITH A HANDLER'S COST

/// How many words a build filled, by the header of a bounded sheet of the second version; no more than the row has.
fn filled_words(sheet: &[u16; 40]) -> usize
    ensures { result ≤ 40 }
{
    let words = 4 + 2 * sheet[3] as usize + 3 * sheet[1] as usize + 2 * sheet[2] as usize;
    words.min(40)
}

/// Two turns and the exit, which cost 6, within 7 cycles and within 8, of which the handler takes some, on the words that the build filled.
fn print_handled(rt: &impl Print, handler: u16) -> io::Result<()> {
    println!(rt; "handler {}", handler)?;
    let mut area = [7u8; 27];
    let mut sheet = [0u16; 40];
    let answered = answer(&build(&SHARED, handler, &mut area, &mut sheet));
    println!(rt; "build {}", answered)?;
    if answered != 0 {
        return Ok(());
    }
    let graph = Graph {
        words: &SHARED,
        handler,
    };
    let filled = &sheet[..filled_words(&sheet)];
    let mut machines = Machines::new(graph, &mut area, filled);
    for budget in 1..3 {
        machines.print_with_budget(rt, budget, &[1, 1, 2, 1])?;
    }
    Ok(())
}

fn main(rt: HostRuntime) -> io::Result<()> {
    print_first(&rt)?;
    print_two(&rt)?;
    print_four(&rt)?;
    print_shared(&rt)?;
    // both budgets leave the two turns, the second alone, one turn, none; and more than the smallest budget
    for handler in [1, 2, 4, 6, 8] {
        print_handled(&rt, handler)?;
    }
    Ok(())
}
