//! One tapped connection between a client and a server: its tap, and what was asked of its ends.

ghost use Rattle.std.specs.Prelude.{◌≡◌, [], false, IfOk, OnOk};
ghost use Rattle.ws_frame.specs.Devices.{watched};
ghost use Rattle.ws_frame.specs.Watching.{has_failed};
ghost use Rattle.ws_tap.specs.Tapping.{HasTapped, IsTapping, waits_for};
ghost use Rattle.ws_relays.specs.Relayed.{IsAskFor, KeepsBut, MayHappenAt, TellsHappened, asked_at_end, asked_last};
ghost use Rattle.ws_relays.specs.Relayed.{fate_behind, fate_of, nothing_asked};

use crate::ends::Ask;
use crate::once::Happened;
use std::alloc::Global;
use std::io::Write;
use ws_base::NoMemory;
use ws_frame::{ShowFault, Watched, WriteFault};
use ws_tap::{Portion, Tap, TapEnd, Tapped};
use ws_wire::Role;

/// How much is asked of an end: so many bytes are to be written to it, at most so many are to be read from it, its
/// direction is to be ended.
#[derive(Clone, Copy, PartialEq, Eq)]
pub(crate) struct Asked {
    pub(crate) bytes: usize,
    pub(crate) room: usize,
    pub(crate) ends: bool,
}

/// Nothing is asked.
const NOTHING: Asked = Asked {
    bytes: 0,
    room: 0,
    ends: false,
};

/// A tapped connection, and what was asked of either end last, where nothing has happened at it since.
#[derive(Drop)]
pub(crate) struct Relay {
    pub(crate) number: u32,
    pub(crate) tap: Box<Tap>,
    pub(crate) client: Asked,
    pub(crate) server: Asked,
}

/// How a tapped connection stands.
#[derive(Clone, Copy)]
pub(crate) enum Fate {
    /// It goes on.
    On,
    /// It has ended so.
    Over(TapEnd),
}

impl Relay {
    /// This connection, over which nothing has passed, and of whose ends nothing was asked.
    pub(crate) fn new(alloc: Global, tapped: Tapped) -> Result<Relay, NoMemory>
        ensures number { IfOk result (λ made. made.number ≡ tapped.number) }
        ensures tap { IfOk result (λ made. HasTapped tapped [] made.tap.value []) }
        ensures client { IfOk result (λ made. made.client ≡ nothing_asked) }
        ensures server { IfOk result (λ made. made.server ≡ nothing_asked) }
    {
        let tap = new_tap(alloc, tapped)?;
        Ok(Relay {
            number: tapped.number,
            tap,
            client: NOTHING,
            server: NOTHING,
        })
    }

    /// What is to be asked of this end now, if that has changed.
    pub(crate) fn ask(&mut self, alloc: Global, role: Role) -> Result<Option<Ask>, NoMemory>
        ensures ask { IfOk result (λ ask. IsAskFor role self.old ask) }
        ensures asked { OnOk result (asked_last role self.new ≡ asked_at_end role self.old.tap.value) }
        ensures kept { KeepsBut role self.old self.new }
        ensures tap { self.new.tap ≡ self.old.tap }
    {
        let asked = asks(&self.tap, role);
        if asked == self.last(role) {
            return Ok(None);
        }
        let bytes = to_write(alloc, &self.tap, role)?;
        self.set_last(role, asked);
        Ok(Some(Ask {
            bytes,
            room: asked.room,
            ends: asked.ends,
        }))
    }

    /// What was asked of this end last, where nothing has happened at it since.
    fn last(&self, role: Role) -> Asked
        ensures { result ≡ asked_last role self.now }
    {
        match role {
            Role::Client => self.client,
            Role::Server => self.server,
        }
    }

    /// This was asked of this end last.
    fn set_last(&mut self, role: Role, asked: Asked)
        ensures asked { asked_last role self.new ≡ asked }
        ensures kept { KeepsBut role self.old self.new }
        ensures tap { self.new.tap ≡ self.old.tap }
    {
        match role {
            Role::Client => self.client = asked,
            Role::Server => self.server = asked,
        }
    }

    /// This happened at this end, of which nothing is asked any more: it is told, and so is how the connection stands
    /// then.
    pub(crate) fn happened<W: Write>(
        &mut self,
        alloc: Global,
        role: Role,
        happened: Happened,
        output: &mut Watched<W>,
    ) -> Result<Fate, ShowFault>
        requires tapping { IsTapping self.old.tap.value }
        requires may { MayHappenAt role self.old.tap.value happened }
        requires output_works { has_failed output.old ≡ false }
        ensures told { TellsHappened role self.old.tap.value self.new.tap.value happened
            (watched W.contents output.old output.new) result }
        ensures fate { IfOk result (λ fate. fate ≡ fate_behind happened self.new.tap.value) }
        ensures asked { asked_last role self.new ≡ nothing_asked }
        ensures kept { KeepsBut role self.old self.new }
    {
        self.set_last(role, NOTHING);
        let failed = happened.is_failed();
        tell(alloc, &mut self.tap, role, happened, output)?;
        if failed {
            return Ok(Fate::Over(TapEnd::Broken));
        }
        Ok(fate_of(&self.tap))
    }
}

/// A tap over which nothing has passed.
#[inline(never)]
fn new_tap(alloc: Global, tapped: Tapped) -> Result<Box<Tap>, NoMemory>
    ensures { IfOk result (λ made. HasTapped tapped [] made.value []) }
{
    let tap = Tap::new(alloc, tapped)?;
    let tap = Box::new(alloc, tap)?;
    Ok(tap)
}

/// How much is to be asked of this end of a tap.
fn asks(tap: &Tap, role: Role) -> Asked
    ensures { result ≡ asked_at_end role tap.now }
{
    Asked {
        bytes: tap.to_write(role).len(),
        room: tap.room(role),
        ends: tap.wants_end(role),
    }
}

/// The bytes that are to be written to this end of a tap.
fn to_write(alloc: Global, tap: &Tap, role: Role) -> Result<Vec<u8>, NoMemory>
    ensures { IfOk result (λ bytes. bytes.items ≡ waits_for role tap.now) }
{
    let bytes = tap.to_write(role).to_vec(alloc)?;
    Ok(bytes)
}

/// This happened at this end of a tap, which is told.
fn tell<W: Write>(
    alloc: Global,
    tap: &mut Tap,
    role: Role,
    happened: Happened,
    output: &mut Watched<W>,
) -> Result<(), ShowFault>
    requires tapping { IsTapping tap.old }
    requires may { MayHappenAt role tap.old happened }
    requires output_works { has_failed output.old ≡ false }
    ensures told { TellsHappened role tap.old tap.new happened (watched W.contents output.old output.new) result }
{
    match happened {
        Happened::Came(bytes) => tap.came(alloc, role, output, Portion::of(bytes))?,
        Happened::Ended => match tap.ended(role, output) {
            Ok(()) => {}
            Err(WriteFault) => return Err(ShowFault::Write),
        },
        Happened::Taken(count) => tap.taken(role, count),
        Happened::DirectionEnded => tap.direction_ended(role),
        Happened::Failed => {}
    }
    Ok(())
}

/// How a connection stands, by its tap.
fn fate_of(tap: &Tap) -> Fate
    ensures { result ≡ fate_of tap.now }
{
    match tap.first_to_end() {
        Some(first) => {
            if tap.is_over() {
                return Fate::Over(TapEnd::Ended(first));
            }
            Fate::On
        }
        None => Fate::On,
    }
}
