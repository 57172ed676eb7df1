//! The messages that have begun and not ended, by the numbers of their keys.

ghost use Rattle.std.specs.Prelude.{◌≡◌, ◌≢◌, ◌<◌, ◌≤◌, true, false, ℕ, List, [], length};
ghost use Rattle.std.specs.Prelude.{Some, None, IfSome, IfNone, IfOk, OnOk, OnErr};
ghost use Rattle.std.specs.Option.{option_copied, option_map};
ghost use Rattle.std.specs.List.{All, swap_remove};
ghost use Rattle.mctp_assembly.specs.Fed.{fed_with};
ghost use Rattle.mctp_assembly.specs.NumberLists.{AreDistinct, Changes, Differ, IsAt, StandsAt, StandsNowhere, at};
ghost use Rattle.mctp_assembly.specs.Numbered.{IsEntry, IsLeftBy, IsNumber, IsRefusedMemory, answer_at, none_open};
ghost use Rattle.mctp_assembly.specs.Opened.{IsOpened};
ghost use Rattle.mctp_assembly.specs.Steps.{begun_by, carried_on};
ghost use Rattle.mctp_assembly.specs.declared.assembler.TheConstants.{MAX_ASSEMBLIES};
ghost use Rattle.mctp_assembly.specs.declared.fed.Assembled.TheVariants as Assembled;

use crate::Assembled;
use crate::buffer::{Buffer, judge_alone, look_alone};
use mctp_packet::{Body, Memory, PacketRef};
use std::alloc::{AllocError, Global};
use std::marker::Model;

/// The open messages by the numbers of their keys, in no order: the last one takes the place of one that ends, so that
/// no others move. Mostly there are few.
#[derive(Debug, Drop)]
pub(crate) struct Messages {
    alloc: Global,
    /// Their numbers, close together: a look-up goes through these alone.
    numbers: Vec<u16>,
    /// The messages, each at the place of its number.
    list: Vec<Buffer>,
    /// Where the message stood whose last packet came last. It is looked at first: mostly it is the next that ends.
    latest: usize,
    /// The room of a message that has ended, for the next one that begins.
    spare: Option<Box<Body>>,
}

impl Model for Messages {
    ghost use Rattle.mctp_assembly.specs.Numbered.{Numbered, AreListed, coded_numbered};

    ghost Value = { Numbered };

    ghost coded = { coded_numbered };

    ghost view = { λ m. m.list.items };

    ghost invariant = { λ m. AreListed m.numbers.items m.list.items };
}

impl Messages {
    /// No messages.
    pub(crate) fn new(alloc: Global) -> Messages
        ensures { result ≡ [] }
    {
        Messages {
            alloc,
            numbers: Vec::new(alloc),
            list: Vec::new(alloc),
            latest: 0,
            spare: None,
        }
    }

    /// Where the number stands.
    fn search(&self, number: u16) -> Option<usize>
        ensures found { IfSome result (IsAt none_open self.now number) }
        ensures absent { IfNone result (at self.now number ≡ None) }
    {
        if stands_at(&self.numbers, self.latest, number) {
            return Some(self.latest);
        }
        place_of(&self.numbers, number)
    }

    /// What is open under this number.
    pub(crate) fn get(&self, number: u16) -> Option<&Buffer>
        ensures { option_map (λ buffer. buffer.1) (option_copied result) ≡ at self.now number }
    {
        let place = self.search(number)?;
        Some(&self.list[place])
    }

    /// How many there are.
    pub(crate) fn len(&self) -> usize
        ensures value { result ≡ length self.now }
        ensures few { length self.now ≤ MAX_ASSEMBLIES }
        ensures differ { Differ none_open self.now }
        ensures opened { All IsEntry self.now }
    {
        self.list.len()
    }

    /// Takes a packet under this number, and gives what it gives, with a message that it completes in `message`:
    /// what is open there is then left as it is. The list is searched once.
    pub(crate) fn take(
        &mut self,
        number: u16,
        packet: &PacketRef<'_>,
        message: &mut Body,
    ) -> Result<Assembled, Memory>
        requires { IsNumber number }
        ensures fed { IfOk result (λ given. fed_with message.new.items given ≡ answer_at self.old number packet.now) }
        ensures ok { OnOk result (IsLeftBy self.old self.new number packet.now) }
        ensures err { OnErr result (IsRefusedMemory self.old self.new number packet.now) }
    {
        if packet.end() {
            Ok(self.take_end(number, packet, message))
        } else {
            self.take_part(number, packet)
        }
    }

    /// Takes a packet that is not an end packet, as [`Messages::take`] does.
    pub(crate) fn take_part(
        &mut self,
        number: u16,
        packet: &PacketRef<'_>,
    ) -> Result<Assembled, Memory>
        requires number { IsNumber number }
        requires unended { packet.now.end ≡ false }
        ensures fed { (bytes : List ℕ)
            → IfOk result (λ given. fed_with bytes given ≡ answer_at self.old number packet.now) }
        ensures ok { OnOk result (IsLeftBy self.old self.new number packet.now) }
        ensures err { OnErr result (IsRefusedMemory self.old self.new number packet.now) }
    {
        match self.search(number) {
            Some(place) => {
                let given = self.list[place].take(packet);
                if let Assembled::Dropped(_) = given {
                    end_at(&mut self.numbers, &mut self.list, &mut self.spare, place);
                }
                Ok(given)
            }
            None => {
                let given = judge_alone(packet);
                if let Assembled::Partial = given {
                    let room = room_for_bytes(self.alloc, &mut self.spare)?;
                    let begun = Buffer::new(number, packet, room);
                    self.numbers.reserve(1)?;
                    self.list.push(begun)?;
                    self.numbers.push(number).unwrap();
                }
                Ok(given)
            }
        }
    }

    /// Takes an end packet, as [`Messages::take`] does.
    fn take_end(&mut self, number: u16, packet: &PacketRef<'_>, message: &mut Body) -> Assembled
        requires { packet.now.end ≡ true }
        ensures fed { fed_with message.new.items result ≡ answer_at self.old number packet.now }
        ensures left { IsLeftBy self.old self.new number packet.now }
    {
        match self.search(number) {
            Some(place) => {
                self.latest = place;
                let given = self.list[place].look_into(packet, message);
                if let Assembled::Dropped(_) = given {
                    end_at(&mut self.numbers, &mut self.list, &mut self.spare, place);
                }
                given
            }
            None => look_alone(packet, message),
        }
    }

    /// Ends what is open under this number.
    #[inline(always)]
    pub(crate) fn remove(&mut self, number: u16)
        ensures { Changes self.old self.new number None }
    {
        if let Some(place) = self.search(number) {
            end_at(&mut self.numbers, &mut self.list, &mut self.spare, place);
        }
    }
}

/// Whether the number stands at this place.
#[inline(always)]
fn stands_at(numbers: &[u16], place: usize, number: u16) -> bool
    ensures { result ≡ true → StandsAt numbers.now number place }
{
    match numbers.get(place) {
        Some(other) => *other == number,
        None => false,
    }
}

/// Where the number stands among these, no two of which are equal.
// All are looked at, and no jump depends on one: so a processor takes several at a time. Not inlined: it is unrolled,
// and each search would have a copy of that.
#[inline(never)]
fn place_of(numbers: &[u16], number: u16) -> Option<usize>
    requires few { length numbers.now ≤ MAX_ASSEMBLIES }
    requires distinct { AreDistinct numbers.now }
    ensures found { IfSome result (StandsAt numbers.now number) }
    ensures absent { IfNone result (StandsNowhere numbers.now number) }
{
    let mut found: u16 = 0; // the place, counted from 1, or none
    let mut next: u16 = 1;
    for other in numbers {
        found += if *other == number { next } else { 0 };
        next += 1;
    }
    if found == 0 {
        None
    } else {
        Some(usize::from(found - 1))
    }
}

/// Room for the bytes of a message: that of a message that has ended, where it was kept, else new room.
// Not inlined: the stack that making new room needs is then used during this call alone.
#[inline(never)]
fn room_for_bytes(alloc: Global, spare: &mut Option<Box<Body>>) -> Result<Box<Body>, AllocError> {
    Ok(match spare.take() {
        Some(room) => room,
        None => Box::new(alloc, Body::new())?,
    })
}

/// Ends the message at this place, and keeps its room for the next one. A list that has room for more than four
/// messages, and for more than four times those that it has, gives back all but twice their room.
fn end_at(
    numbers: &mut Vec<u16>,
    list: &mut Vec<Buffer>,
    spare: &mut Option<Box<Body>>,
    place: usize,
)
    requires there { place < length list.old.items }
    requires listed { length numbers.old.items ≡ length list.old.items }
    requires few { length list.old.items ≤ MAX_ASSEMBLIES }
    ensures list { list.new.items ≡ swap_remove list.old.items place (0, none_open) }
    ensures numbers { numbers.new.items ≡ swap_remove numbers.old.items place 0 }
{
    numbers.swap_remove(place);
    *spare = Some(list.swap_remove(place).into_room());
    if list.capacity() > 4 * list.len().max(1) {
        numbers.shrink_to(2 * list.len());
        list.shrink_to(2 * list.len());
    }
}
