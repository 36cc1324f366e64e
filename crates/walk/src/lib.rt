// The walk: a place, a count, an end and the number of a budget, its starting values, the test of its shape, and the four words that it crosses to
// C and Rust as. Rests on words; what a walk stands for is said by specs Walks, over theory Walks and calls Moves, and four words by WalkWords.
#![tactic(auto)]

ghost use Rattle.std.specs.Prelude.{◌≡◌, ◌<◌, eqb};
ghost use Rattle.theory.specs.Machines.{diverted};
ghost use Rattle.theory.specs.Walks.{start_at, stopped, is_exit, has_ended, end_at, most_moves};
ghost use Rattle.calls.specs.Moves.{budgeted, starting_walk, out_of_shape};
ghost use Rattle.walk.specs.Walks.{end_of, state_of, walk_of, apart};
ghost use Rattle.walk.specs.WalkWords.{end_word, walk_in, walk_words};

/// Whether a walk goes on, or has ended: at the exit, or diverted.
#[derive(Clone, Copy, Debug, PartialEq, Eq)]
pub enum End {
    Going,
    Exit,
    Diverted,
}

impl End {
    /// The end of a walk that has entered a place.
    #[tactic(auto, unfolding(crate::specs::Walks::end_of, theory::specs::Walks::end_at))]
    pub fn at(place: usize, exit: usize) -> End
        ensures { end_of result ≡ end_at exit place }
    {
        if place == exit { End::Exit } else { End::Going }
    }

    /// Whether it is one of the two.
    #[tactic(auto, unfolding(crate::specs::Walks::end_of, theory::specs::Walks::has_ended))]
    pub fn has_ended(self) -> bool
        ensures { result ≡ has_ended (end_of self) }
    {
        self != End::Going
    }

    /// The most moves within a budget: one more once the walk has ended.
    #[tactic(auto, unfolding(crate::specs::Walks::end_of, theory::specs::Walks::most_moves))]
    pub fn most_moves(self, budget: usize) -> usize
        requires { budget < 65536 }
        ensures { result ≡ most_moves budget (end_of self) }
    {
        if self == End::Going {
            budget
        } else {
            budget + 1
        }
    }

    /// Whether the end exit and the exit's place do not stand together.
    #[tactic(auto, unfolding(crate::specs::Walks::end_of, theory::specs::Walks::is_exit))]
    fn is_torn(self, place: usize, exit: usize) -> bool
        ensures { result ≡ apart (is_exit (end_of self)) (eqb place exit) }
    {
        (self == End::Exit) != (place == exit)
    }
}

/// A walk: its place, a block or a copy, its count, its end, and the number of its chosen budget, counted from 1.
#[derive(Clone, Copy, Debug, PartialEq, Eq)]
pub struct Walk {
    pub place: u16,
    pub count: u16,
    pub end: End,
    pub budget: u16,
}

impl Walk {
    /// The most moves of a walk on a built sheet, whatever its budget: it ends within one more than the largest.
    pub const MOST_MOVES: usize = words::MOST_BUDGET + 1;

    /// Where a walk starts.
    pub const FIRST_PLACE: u16 = 1;

    /// What it has counted there.
    pub const FIRST_COUNT: u16 = 0;

    /// The number of the starting walk's budget.
    pub const FIRST_BUDGET: u16 = 1;

    /// The exit's place on a graph sheet, where places are blocks.
    pub const EXIT_PLACE: usize = 2;

    /// The starting walk, which takes no input: place 1, count 0, going.
    #[tactic(auto, unfolding(crate::specs::Walks::end_of, theory::specs::Walks::start_at))]
    pub fn start() -> Self
        ensures { walk_of result ≡ starting_walk }
    {
        Walk {
            place: Walk::FIRST_PLACE,
            count: Walk::FIRST_COUNT,
            end: End::Going,
            budget: Walk::FIRST_BUDGET,
        }
    }

    /// The walk that sets out from a place, with this budget's number.
    #[tactic(auto, unfolding(crate::specs::Walks::end_of, theory::specs::Walks::start_at))]
    pub fn set_out(place: usize, budget: u16) -> Walk
        requires { place < 65536 }
        ensures { walk_of result ≡ budgeted budget (start_at place) }
    {
        Walk {
            place: place as u16,
            count: Walk::FIRST_COUNT,
            end: End::Going,
            budget,
        }
    }

    /// The walk that is diverted before it sets out, at place 1 with count 0.
    #[tactic(auto, unfolding(crate::specs::Walks::end_of))]
    pub fn stop(budget: u16) -> Walk
        ensures { walk_of result ≡ budgeted budget stopped }
    {
        Walk {
            place: Walk::FIRST_PLACE,
            count: Walk::FIRST_COUNT,
            end: End::Diverted,
            budget,
        }
    }

    /// The walk when it has entered a place, at this count.
    pub fn enter(self, place: usize, exit: usize, count: usize) -> Walk
        requires { (place < 65536) × (count < 65536) }
        ensures { walk_of result ≡ budgeted self.budget (record { place = place; count = count; end = end_at exit place }) }
    {
        Walk {
            place: place as u16,
            count: count as u16,
            end: End::at(place, exit),
            ..self
        }
    }

    /// The walk diverted where it stands, at this count.
    #[tactic(auto, unfolding(crate::specs::Walks::end_of))]
    pub fn divert(self, count: u16) -> Walk
        ensures { walk_of result ≡ budgeted self.budget (record { place = self.place; count = count; end = diverted }) }
    {
        Walk {
            count,
            end: End::Diverted,
            ..self
        }
    }

    /// Whether the place is outside 1 to `places`, the end exit and the exit's place do not stand together, or the count is above `most`.
    #[tactic(auto, unfolding(calls::specs::Moves::out_of_shape, base::specs::Checks::outside))]
    pub fn out_of_shape(self, places: usize, exit: usize, most: usize) -> bool
        ensures { result ≡ out_of_shape places exit most (state_of self) }
    {
        let place = self.place as usize;
        place < 1 || places < place || self.end.is_torn(place, exit) || most < self.count as usize
    }
}

impl From<End> for u16 {
    ghost from_gives = { λ end word. word ≡ end_word (end_of end) };

    #[tactic(auto, unfolding(crate::specs::Walks::end_of, crate::specs::WalkWords::end_word))]
    fn from(end: End) -> u16 {
        match end {
            End::Going => 0,
            End::Exit => 1,
            End::Diverted => 2,
        }
    }
}

impl From<[u16; 4]> for Walk {
    ghost from_gives = { λ words walk. walk_of walk ≡ walk_in words };

    #[tactic(auto, unfolding(crate::specs::Walks::end_of, crate::specs::WalkWords::end_in, crate::specs::WalkWords::state_in))]
    fn from(words: [u16; 4]) -> Walk {
        let end = match words[2] {
            0 => End::Going,
            1 => End::Exit,
            2 => End::Diverted,
            // no place at all, which is out of shape on every sheet
            _ => {
                return Walk {
                    place: 0,
                    count: 0,
                    end: End::Going,
                    budget: words[3],
                };
            }
        };
        Walk {
            place: words[0],
            count: words[1],
            end,
            budget: words[3],
        }
    }
}

impl From<Walk> for [u16; 4] {
    ghost from_gives = { λ walk words. words ≡ walk_words (walk_of walk) };

    fn from(walk: Walk) -> [u16; 4] {
        [walk.place, walk.count, u16::from(walk.end), walk.budget]
    }
}
