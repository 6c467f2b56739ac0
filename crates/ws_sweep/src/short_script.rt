//! The scripts of at most some steps, in the order of their lengths and then of the alphabet.

ghost use Rattle.std.specs.Prelude.{◌≡◌, ◌+◌, ◌<◌, ◌≤◌, length};
ghost use Rattle.ws_sweep.specs.Order.{ArePlaces, count_of_scripts, max_steps, script_number};

use std::marker::Model;

/// How many steps the alphabet has.
pub const STEPS: usize = 27;

/// Scripts have at most so many steps.
pub const MAX_STEPS: usize = 4;

/// A script by the places of its steps in the alphabet, counted from 0, in their order. Contracts see the list of them.
#[derive(Drop)]
pub struct ShortScript {
    /// The last of these are the places.
    room: [u8; 4],
    /// Where they begin.
    start: usize,
}

impl Model for ShortScript {
    ghost use Rattle.std.specs.Prelude.{◌≤◌, List, ℕ, drop};

    ghost Value = { List ℕ };

    ghost view = { λ s. drop s.start s.room };

    ghost invariant = { λ s. s.start ≤ 4 };
}

impl ShortScript {
    /// The script of this number: how many stand before it in the order.
    pub fn at(number: usize) -> ShortScript
        requires { number < count_of_scripts max_steps }
        ensures places { ArePlaces result }
        ensures number { script_number result ≡ number }
    {
        let mut room = [0; MAX_STEPS];
        let mut start = MAX_STEPS;
        let mut rest = number;
        while rest > 0 {
            start -= 1;
            room[start] = ((rest - 1) % STEPS) as u8;
            rest = (rest - 1) / STEPS;
        }
        ShortScript { room, start }
    }

    /// The places of its steps.
    pub fn places(&self) -> &[u8]
        ensures { result.now ≡ self.now }
    {
        &self.room[self.start..]
    }

    /// Does nothing: a script has so many steps at most.
    pub(crate) fn law_few_steps(&self)
        ensures { length self.now ≤ max_steps }
    {
        let _places = &self.room[self.start..];
    }
}

/// How many scripts of at most so many steps there are.
pub fn script_count(steps: usize) -> usize
    requires { steps ≤ max_steps }
    ensures { result ≡ count_of_scripts steps }
{
    let mut count = 1;
    for _ in 0..steps {
        count = 1 + STEPS * count;
    }
    count
}

/// The scripts of at most some steps, one after the other.
#[derive(Drop)]
pub struct ShortScripts {
    next: usize,
    left: usize,
}

impl Model for ShortScripts {
    ghost use Rattle.std.specs.Prelude.{◌≤◌, ◌+◌};
    ghost use Rattle.ws_sweep.specs.Order.{ScriptsLeft, count_of_scripts, max_steps};

    ghost Value = { ScriptsLeft };

    ghost view = { λ s. record { next = s.next; left = s.left } };

    ghost invariant = { λ s. s.next + s.left ≤ count_of_scripts max_steps };
}

impl ShortScripts {
    /// Those of at most so many steps.
    pub fn up_to(steps: usize) -> ShortScripts
        requires { steps ≤ max_steps }
        ensures next { result.next ≡ 0 }
        ensures left { result.left ≡ count_of_scripts steps }
    {
        ShortScripts {
            next: 0,
            left: script_count(steps),
        }
    }
}

impl Iterator for ShortScripts {
    type Item = ShortScript;

    ghost use Rattle.std.specs.Iterator.{at_most};
    ghost use Rattle.ws_sweep.specs.Order.{GivesScript};

    ghost next_gives = { GivesScript };

    ghost remaining = { λ s. at_most s.left };

    fn next(&mut self) -> Option<ShortScript> {
        if self.left == 0 {
            return None;
        }
        let script = ShortScript::at(self.next);
        self.next += 1;
        self.left -= 1;
        Some(script)
    }
}
