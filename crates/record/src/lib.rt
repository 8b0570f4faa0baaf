// The record of a watch: what it holds of the ages 0 to H, as stretches, and of all ages above H. Whether a record is proper,
// what it says of an age, and how one is built stretch by stretch. Every value is answered: a record may come from elsewhere
// and hold anything. Sets of states have bit i for state i.
#![tactic(auto)]

ghost use Rattle.std.specs.Prelude.{◌<◌, ◌≡◌, length, min, take};
ghost use Rattle.base.specs.Masks.{all};
ghost use Rattle.record.specs.Pairs.{both};
ghost use Rattle.record.specs.Stretches.{touches};
ghost use Rattle.record.specs.Records.{place, inside, pairs_at, pair_okb, stretch_okb, followsb};
ghost use Rattle.record.specs.Records.{in_place_okb, place_okb, properb};
ghost use Rattle.record.specs.Building.{empty_record, appended, pushed};

// The sure and the possible states at an age.
#[repr(C)]
#[derive(Clone, Copy, PartialEq, Eq, Default)]
pub struct Pair {
    pub sure: u16,
    pub possible: u16,
}

// The ages from first to last, both in, which have one pair.
#[repr(C)]
#[derive(Clone, Copy, PartialEq, Eq, Default)]
pub struct Stretch {
    pub first: u32,
    pub last: u32,
    pub pair: Pair,
}

// The stretches are the first `count` of the places; `above` is the pair of all ages above H. The count stands beside the places,
// since a record is held without a heap and crosses to C as it is.
#[repr(C)]
#[derive(Clone, Copy)]
pub struct Record {
    pub room: u8,
    pub count: u8,
    pub places: [Stretch; 64],
    pub above: Pair,
}

impl Pair {
    // Two pairs as one: the sure sets together, and the possible ones.
    pub fn both(self, other: Pair) -> Pair
        ensures { result ≡ both self other }
    {
        Pair {
            sure: self.sure | other.sure,
            possible: self.possible | other.possible,
        }
    }

    // The sure set is part of the possible set, and no state is n or above.
    #[tactic(auto, using(base::proofs::Rules::tests), unfolding(crate::specs::Records::pair_okb))]
    fn is_ok(self, states: u8) -> bool
        ensures { result ≡ pair_okb states self }
    {
        self.sure | self.possible == self.possible && !base::past_states(states, self.possible)
    }
}

impl Stretch {
    // The age is in the stretch, both ends in.
    #[tactic(auto, using(base::proofs::Rules::tests), unfolding(crate::specs::Records::inside))]
    fn contains(self, age: u32) -> bool
        ensures { result ≡ inside self age }
    {
        self.first <= age && age <= self.last
    }

    // It is some ages long, within 0 to H, with something possible, and its pair is a good one. Horizon and states are two numbers
    // here and below, as in the definitions, and no struct.
    #[tactic(auto, using(base::proofs::Rules::tests), unfolding(crate::specs::Records::stretch_okb))]
    fn is_ok(self, horizon: u32, states: u8) -> bool
        ensures { result ≡ stretch_okb horizon states self }
    {
        self.last <= horizon
            && self.first <= self.last
            && self.pair.possible != 0
            && self.pair.is_ok(states)
    }

    // It may come directly behind another: it lies above that, and differs in its pair where it touches it.
    #[tactic(auto, using(base::proofs::Rules::tests), unfolding(crate::specs::Records::followsb, crate::specs::Stretches::touches))]
    fn follows(self, before: Stretch) -> bool
        ensures { result ≡ followsb before self }
    {
        before.last < self.first && !before.touches(self.first, self.pair)
    }

    // Whether it ends directly before the age, and has the pair.
    #[tactic(auto, using(base::proofs::Rules::tests), unfolding(crate::specs::Stretches::touches))]
    fn touches(self, age: u32, pair: Pair) -> bool
        ensures { result ≡ touches self age pair }
    {
        self.last < age && self.last + 1 == age && self.pair == pair
    }
}

impl Record {
    // ---- what a record says of an age

    // The places in use; all of them where more are counted than there are.
    pub fn stretches(&self) -> &[Stretch]
        ensures places { result.now ≡ take (min self.now.count 64) self.now.places }
        ensures count { length result.now ≡ min self.now.count 64 }
    {
        let count = usize::from(self.count).min(64);
        &self.places[..count]
    }

    // The pair of the age; above H it is the one for all of those.
    pub fn pair_at(&self, horizon: u32, age: u32) -> Pair
        ensures { result ≡ pairs_at horizon self.now age }
    {
        if horizon < age {
            return self.above;
        }
        // From the last on, since of a record that is not proper the last that has the age decides.
        let stretches = self.stretches();
        for i in (0..stretches.len()).rev() {
            let x = stretches[i];
            if x.contains(age) {
                return x.pair;
            }
        }
        Pair::default()
    }

    // ---- whether a record is proper

    // Place i, behind the place before it: in use it is a proper stretch and may follow that one; otherwise it is zero.
    #[tactic(auto, using(base::proofs::Rules::tests), unfolding(crate::specs::Records::blankb, crate::specs::Records::place_okb))]
    fn place_ok(&self, horizon: u32, states: u8, i: usize) -> bool
        requires { i < 64 }
        ensures { result ≡ place_okb horizon states self.now i }
    {
        let here = self.places[i];
        if usize::from(self.count) <= i {
            return here == Stretch::default();
        }
        here.is_ok(horizon, states) && (i == 0 || here.follows(self.places[i - 1]))
    }

    fn places_ok(&self, horizon: u32, states: u8) -> bool
        ensures { result ≡ all 64 (place_okb horizon states self.now) }
    {
        for i in 0..64 {
            if !self.place_ok(horizon, states, i) {
                return false;
            }
        }
        true
    }

    // Whether it is a proper record for a table of that horizon and that many states.
    #[tactic(auto, using(base::proofs::Rules::tests), unfolding(crate::specs::Records::properb))]
    pub fn is_proper(&self, horizon: u32, states: u8) -> bool
        ensures { result ≡ properb horizon states self.now }
    {
        1 <= self.room
            && self.room <= 64
            && self.count <= self.room
            && self.places_ok(horizon, states)
            && self.above.is_ok(states)
    }

    // ---- how a record is built, in rising order of ages

    // No stretch yet.
    pub fn empty(room: u8, above: Pair) -> Record
        ensures { result ≡ empty_record room above }
    {
        Record {
            room,
            count: 0,
            places: [Stretch::default(); 64],
            above,
        }
    }

    // A stretch more, in the place behind the last, within the room. Where the room does not take it, a count that no room has
    // stands for more stretches than that, and none of them is kept: to push cannot fail, so this is no Err.
    #[tactic(auto, using(base::proofs::Rules::tests), unfolding(crate::specs::Building::appended))]
    fn append(&mut self, x: Stretch)
        ensures { self.new ≡ appended self.old x }
    {
        if self.room <= self.count || 64 <= self.count {
            self.count = 65;
            self.places = [Stretch::default(); 64];
            return;
        }
        self.places[usize::from(self.count)] = x;
        self.count += 1;
    }

    // The ages from first to last, all with the pair, behind the stretches of the ages below: they go on with the last stretch
    // or begin one, or none where nothing is possible. They are handed on one by one, as in the definition: most callers have no
    // stretch of them.
    #[tactic(auto, using(base::proofs::Rules::tests), unfolding(crate::specs::Building::pushed, crate::specs::Building::joined))]
    pub fn push(&mut self, first: u32, last: u32, pair: Pair)
        ensures { self.new ≡ pushed self.old first last pair }
    {
        if pair.possible == 0 || 64 < self.count {
            return;
        }
        if 0 < self.count {
            let newest = (self.count - 1) as usize;
            if self.places[newest].touches(first, pair) {
                self.places[newest].last = last;
                return;
            }
        }
        self.append(Stretch { first, last, pair });
    }
}
