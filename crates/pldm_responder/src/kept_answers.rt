//! The answers that are kept, by the source of the request.

ghost use Rattle.std.specs.Prelude.{◌≡◌, ◌*◌, ◌≤◌, ◌<◌, [], true, IfOk, IfErr, OnOk, IsSome};
ghost use Rattle.std.specs.Option.{option_copied};
ghost use Rattle.std.specs.List.{insert};
ghost use Rattle.std.specs.Vec.{vec_capacity, vec_len};
ghost use Rattle.mctp_assembly.specs.NumberLists.{IsAt, IsGapFor};
ghost use Rattle.pldm_wire.specs.declared.assigned.TheConstants.{INSTANCE_IDS};
ghost use Rattle.pldm_responder.specs.Counts.{CountsKept};
ghost use Rattle.pldm_responder.specs.Ends.{AreSameRows, ChangesAnswers, GetsRow};
ghost use Rattle.pldm_responder.specs.Reserving.{IsRoomFor, IsWhyNoRow, IsWithinSources};
ghost use Rattle.pldm_responder.specs.Slots.{AreKept, MayBeKept, entry_in, in_front, in_place, no_answers, row_of, source_count};

use crate::answering_end::OTHER_ENDPOINTS;
use crate::arriving::RoomRefusal;
use crate::kept_answer::KeptAnswer;
use crate::row::Row;
use crate::slots::Slots;
use mctp_packet::{Eid, Memory, Moment};
use pldm_wire::Window;
use std::alloc::Global;
use std::marker::Model;

/// A row in a place of its own, so that the list of them is short and moves fast.
#[derive(Debug, Drop)]
struct Place {
    row: Box<Row>,
}

impl Model for Place {
    ghost use Rattle.std.specs.Prelude.{box_value};
    ghost use Rattle.pldm_responder.specs.Slots.{Answers, coded_answers};

    ghost Value = { Answers };

    ghost coded = { coded_answers };

    ghost view = { λ p. box_value p.row };
}

impl Place {
    /// A row of no answers.
    // Not inlined: it runs once for each source, in a function that runs for each request.
    #[inline(never)]
    fn new(alloc: Global, window: Window) -> Result<Place, Memory>
        ensures { IfOk result (λ place. place ≡ record { window = window; kept = [] }) }
    {
        let slots = Slots::new(alloc, usize::from(window.get()))?;
        Ok(Place {
            row: Box::new(alloc, Row::new(window, slots))?,
        })
    }

    /// The row.
    #[inline(always)]
    fn row(&self) -> &Row
        ensures { result.now ≡ self.now }
    {
        &self.row
    }
}

/// The answers that are kept, in a row for each source, by the endpoint IDs of the sources, which rise: a look-up is a
/// binary search.
#[derive(Debug, Drop)]
pub(crate) struct KeptAnswers {
    alloc: Global,
    window: Window,
    rows: Vec<(u8, Place)>,
    /// Where the row stood that was looked for last. It is looked at first: many packets come from the source of the
    /// one before, and a request looks for its row three times more.
    latest: usize,
    /// How many rows there are for each endpoint ID between the first and the last source, in 65,536ths. So a row is
    /// guessed without a division.
    spread: u32,
}

impl Model for KeptAnswers {
    ghost use Rattle.std.specs.Vec.{vec_capacity};
    ghost use Rattle.pldm_responder.specs.Slots.{AreKept, Rows, coded_rows};

    ghost Value = { Rows };

    ghost coded = { coded_rows };

    ghost view = { λ k. record { window = k.window; places = vec_capacity k.rows; list = k.rows.items } };

    ghost invariant = { λ k. AreKept (record {
      window = k.window;
      places = vec_capacity k.rows;
      list = k.rows.items;
    }) };
}

/// Room for the answers to a source: a row where the source has none yet. It is given back where it is not put in.
#[derive(Debug, Drop)]
pub struct Reserved {
    row: Option<Place>,
}

impl Model for Reserved {
    ghost use Rattle.std.specs.Coded.{coded_option};
    ghost use Rattle.std.specs.Prelude.{Option};
    ghost use Rattle.pldm_responder.specs.Slots.{Answers, coded_answers};

    ghost Value = { Option Answers };

    ghost coded = { coded_option coded_answers };

    ghost view = { λ r. r.row };
}

impl KeptAnswers {
    /// No answers, of at most this many instance IDs of a source. It takes no memory.
    pub(crate) fn new(alloc: Global, window: Window) -> KeptAnswers
        ensures { result ≡ record { window = window; places = 0; list = [] } }
    {
        KeptAnswers {
            alloc,
            window,
            rows: Vec::new(alloc),
            latest: 0,
            spread: 0,
        }
    }

    /// How many instance IDs of a source answers are kept for.
    pub(crate) fn window(&self) -> Window
        ensures { result ≡ self.now.window }
    {
        self.window
    }

    /// The answer that is kept for a source and an instance ID.
    #[inline(always)]
    pub(crate) fn get(&self, source: Eid, id: u8) -> Option<KeptAnswer<'_>>
        requires { id < INSTANCE_IDS }
        ensures { result ≡ entry_in self.now source id }
    {
        self.row(source)?.get(id)
    }

    /// Where the row of a source stands, or where it would go.
    #[inline(always)]
    fn search(&self, source: Eid) -> Result<usize, usize>
        ensures found { IfOk result (IsAt no_answers self.now.list source) }
        ensures absent { IfErr result (IsGapFor no_answers self.now.list source) }
    {
        let source = source.get();
        if stands_at(&self.rows, self.latest, source) {
            return Ok(self.latest);
        }
        let place = even_place(&self.rows, self.spread, source);
        if stands_at(&self.rows, place, source) {
            return Ok(place);
        }
        self.rows.binary_search_by_key(&source, |(other, _)| *other)
    }

    /// Looks for the row of a source, which is then found at once.
    #[inline(always)]
    pub(crate) fn look_for(&mut self, source: Eid)
        ensures { self.new ≡ self.old }
    {
        if let Ok(place) = self.search(source) {
            self.latest = place;
        }
    }

    /// The row of a source.
    #[inline(always)]
    fn row(&self, source: Eid) -> Option<&Row>
        ensures { option_copied result ≡ row_of self.now source }
    {
        match self.search(source) {
            Ok(place) => Some(self.rows[place].1.row()),
            Err(_) => None,
        }
    }

    /// Takes the room for the answers to a source, where it has none yet and fewer than `max` sources have. Nothing of
    /// what is kept changes until it is put in.
    #[inline(always)]
    pub(crate) fn reserve(&mut self, source: Eid, max: usize) -> Result<Reserved, RoomRefusal>
        ensures same { AreSameRows self.new self.old }
        ensures ok { IfOk result (IsRoomFor self.new source) }
        ensures few { IfOk result (IsWithinSources self.new max) }
        ensures err { IfErr result (IsWhyNoRow self.old max source) }
    {
        if self.row(source).is_some() {
            return Ok(Reserved { row: None });
        }
        if self.rows.len() >= max {
            return Err(RoomRefusal::Sources);
        }
        let row = Place::new(self.alloc, self.window)?;
        self.make_place(max)?;
        Ok(Reserved { row: Some(row) })
    }

    /// Makes a place for one more row: at the first, one for each that there may be, so that the list grows once.
    fn make_place(&mut self, max: usize) -> Result<(), Memory>
        ensures window { self.new.window ≡ self.old.window }
        ensures same { self.new.list ≡ self.old.list }
        ensures room { OnOk result (source_count self.new < self.new.places) }
    {
        let missing = max.min(OTHER_ENDPOINTS).saturating_sub(self.rows.len());
        self.rows.reserve_exact(missing.max(1))?;
        Ok(())
    }

    /// Puts the room for the answers to a source in, where it has none yet.
    #[inline(always)]
    pub(crate) fn put_row(&mut self, source: Eid, reserved: Reserved)
        requires { IsRoomFor self.old source reserved }
        ensures gets { GetsRow source self.new self.old }
        ensures some { IsSome (row_of self.new source) }
    {
        let Some(row) = reserved.row else {
            return;
        };
        if let Err(place) = self.search(source) {
            insert_reserved(&mut self.rows, place, (source.get(), row));
            self.spread = spread_of(&self.rows);
        }
    }

    /// Puts an answer in front of those to its source. There has to be room for it.
    #[inline(always)]
    pub(crate) fn put(&mut self, source: Eid, id: u8, moment: Moment, bytes: &[u8], answer: &[u8])
        requires room { IsSome (row_of self.old source) }
        requires messages { MayBeKept id bytes.now answer.now }
        ensures { ChangesAnswers source (in_front self.old.window
            (record { moment = moment; bytes = bytes.now; answer = answer.now })) self.new self.old }
    {
        if let Ok(place) = self.search(source) {
            self.rows[place].1.row.put(id, moment, bytes, answer);
            self.latest = place;
        }
    }

    /// Puts an answer in the place of the one of its source and instance ID, where one is kept.
    pub(crate) fn replace(
        &mut self,
        source: Eid,
        id: u8,
        moment: Moment,
        bytes: &[u8],
        answer: &[u8],
    )
        requires { MayBeKept id bytes.now answer.now }
        ensures { ChangesAnswers source
            (in_place (record { moment = moment; bytes = bytes.now; answer = answer.now })) self.new self.old }
    {
        if let Ok(place) = self.search(source) {
            self.rows[place].1.row.replace(id, moment, bytes, answer);
        }
    }

    /// How many sources have a row.
    pub(crate) fn sources(&self) -> usize
        ensures { result ≡ source_count self.now }
    {
        self.rows.len()
    }

    /// How many answers there are.
    pub(crate) fn count(&self) -> usize
        ensures value { CountsKept (entry_in self.now) result }
        ensures few { result ≤ self.now.window * source_count self.now }
        ensures kept { AreKept self.now }
    {
        self.rows.iter().map(|(_, place)| place.row.len()).sum()
    }
}

/// Whether the row of a source stands at a place.
#[inline(always)]
fn stands_at(rows: &[(u8, Place)], place: usize, source: u8) -> bool
    ensures { result ≡ true → IsAt no_answers rows.now source place }
{
    match rows.get(place) {
        Some((other, _)) => *other == source,
        None => false,
    }
}

/// Where the row of a source stands if the sources that have one are spread evenly, as where each endpoint has one.
#[inline(always)]
fn even_place(rows: &[(u8, Place)], spread: u32, source: u8) -> usize {
    let Some((first, _)) = rows.first() else {
        return 0;
    };
    let below = u32::from(source.saturating_sub(*first));
    (below.wrapping_mul(spread) >> 16) as usize
}

/// How many rows there are for each endpoint ID between the first and the last source, in 65,536ths.
// Not inlined: it runs once for each source, in a function that runs for each request.
#[inline(never)]
fn spread_of(rows: &[(u8, Place)]) -> u32 {
    match rows {
        [(first, _), .., (last, _)] if first < last => {
            let places = rows.len().min(OTHER_ENDPOINTS) as u32;
            ((places - 1) * 65_536).div_ceil(u32::from(*last - *first))
        }
        _ => 0,
    }
}

/// Puts a row in at a place of the list, which has room for it.
fn insert_reserved(rows: &mut Vec<(u8, Place)>, place: usize, row: (u8, Place))
    requires place { place ≤ vec_len rows.old }
    requires room { vec_len rows.old < vec_capacity rows.old }
    ensures { rows.new.items ≡ insert rows.old.items place row }
{
    let inserted = rows.insert(place, row);
    if inserted.is_err() {
        unreachable!(); // there is room
    }
}
