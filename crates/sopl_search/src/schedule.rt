//! Which seat is given each step of a search.

ghost use Rattle.std.specs.Prelude.{◌≡◌, ◌+◌, ◌<◌, ◌^◌, None};
ghost use Rattle.sopl_search.specs.Schedules.{AreSeats, IsOrder, drawn_below, named_seat, next_draw, schedule_state};

/// The seats take steps in turn; or, where an order is given, as a generator draws them that begins with this number. `turn` steps were given.
#[derive(Clone, Copy)]
pub struct Schedule {
    pub seats: u32,
    pub order: Option<u32>,
    pub state: u32,
    pub turn: u64,
    ghost few: { AreSeats seats },
    ghost below: { IsOrder order },
    ghost drawn: { state ≡ schedule_state order turn },
}

/// The state of the generator behind a draw.
fn next_state(state: u32) -> u32
    ensures next { result ≡ next_draw state }
    ensures below { result < 2 ^ 31 }
{
    ((u64::from(state) * 1_103_515_245 + 12_345) % 2_147_483_648) as u32
}

/// The seat that a state draws among so many.
fn seat_drawn(seats: u32, state: u32) -> u32
    requires seats { AreSeats seats }
    ensures drawn { result ≡ drawn_below seats state }
    ensures exists { result < seats }
{
    (state / 65_536) % seats
}

/// The seat that has this turn among so many.
#[tactic(auto, using(crate::proofs::Drawing::seat_by_turn))]
fn seat_in_turn(seats: u32, turn: u64) -> u32
    requires seats { AreSeats seats }
    ensures named { result ≡ named_seat seats None turn }
    ensures exists { result < seats }
{
    (turn % u64::from(seats)) as u32
}

impl Schedule {
    /// A schedule of so many seats, which take steps in turn or in this order. No step is given yet.
    #[tactic(auto, using(crate::proofs::Drawing::state_first))]
    pub fn new(seats: u32, order: Option<u32>) -> Schedule
        requires seats { AreSeats seats }
        requires order { IsOrder order }
        ensures seats { result.seats ≡ seats }
        ensures order { result.order ≡ order }
        ensures turn { result.turn ≡ 0 }
    {
        Schedule {
            seats,
            order,
            state: order.unwrap_or(0),
            turn: 0,
        }
    }

    /// The seat of the next step, which counts as given from then on.
    #[tactic(auto, using(crate::proofs::Drawing::seat_by_draw, crate::proofs::Drawing::seat_in_turn))]
    pub fn next(&mut self) -> u32
        requires few { self.old.turn < 2 ^ 63 }
        ensures named { result ≡ named_seat self.old.seats self.old.order self.old.turn }
        ensures exists { result < self.old.seats }
        ensures seats { self.new.seats ≡ self.old.seats }
        ensures order { self.new.order ≡ self.old.order }
        ensures turn { self.new.turn ≡ self.old.turn + 1 }
    {
        let now = *self;
        match now.order {
            Some(_) => {
                let state = next_state(now.state);
                *self = Schedule {
                    seats: now.seats,
                    order: now.order,
                    state,
                    turn: now.turn + 1,
                };
                seat_drawn(now.seats, state)
            }
            None => {
                *self = Schedule {
                    seats: now.seats,
                    order: now.order,
                    state: now.state,
                    turn: now.turn + 1,
                };
                seat_in_turn(now.seats, now.turn)
            }
        }
    }
}
