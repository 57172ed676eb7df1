//! The assembler: it takes packets in the order in which they come, and returns whole messages (DSP0236).

ghost use Rattle.std.specs.FinMap as map;
ghost use Rattle.std.specs.Prelude.{◌≡◌, ◌≤◌, true, false, [], length, IfOk, OnOk, OnErr, IfSome};
ghost use Rattle.mctp_assembly.specs.Fed.{fed_with};
ghost use Rattle.mctp_assembly.specs.Steps.{answer, after, after_without_ending};
ghost use Rattle.mctp_assembly.specs.declared.key.Key.{Key};
ghost use Rattle.mctp_assembly.specs.declared.fed.Fed.TheVariants.{Partial};

use crate::buffer::look_alone;
use crate::messages::Messages;
use crate::{Assembled, Fed, Key};
use mctp_packet::{Body, MAX_EID, MAX_MESSAGE_BYTES, MIN_EID, Memory, PacketRef, TAGS};
use std::alloc::Global;
use std::marker::Model;

/// The most assemblies at a time: one for each endpoint ID that a packet can come from, each tag and
/// each of the two values of the tag owner bit.
pub const MAX_ASSEMBLIES: usize = (MAX_EID - MIN_EID + 1) as usize * TAGS as usize * 2;

/// Assembles messages from packets that came to one endpoint: at most one message at a time for
/// each [`Key`].
#[derive(Debug, Drop)]
pub struct Assembler {
    messages: Messages,
}

impl Model for Assembler {
    ghost use Rattle.std.specs.FinMap as map;
    ghost use Rattle.mctp_assembly.specs.Keys.{key_cmp, coded_key};
    ghost use Rattle.mctp_assembly.specs.Numbered.{held_in};
    ghost use Rattle.mctp_assembly.specs.Opened.{Opened, coded_opened};

    ghost Value = { map.FinMap key_cmp Opened };

    ghost coded = { map.code coded_key coded_opened };

    ghost view = { λ a. held_in a.messages };
}

impl Assembler {
    /// An assembler with no assembly.
    pub fn new(alloc: Global) -> Assembler
        ensures { result ≡ map.empty }
    {
        Assembler {
            messages: Messages::new(alloc),
        }
    }

    /// Takes a packet, and gives what it gives after the packets of its key (DSP0236, "Message
    /// assembly" and "Terminating message assembly/dropped packets").
    ///
    /// A start packet ends an assembly in progress on its key. Any other packet ends it too, unless it gives `Partial`.
    ///
    /// # Errors
    ///
    /// `Memory` where a growth was refused. Only a start packet that gives `Partial` needs memory: it takes the room
    /// for a whole message. The assembler is then as before.
    pub fn feed(&mut self, packet: &PacketRef<'_>) -> Result<Fed, Memory>
        ensures fed { IfOk result (λ fed. fed ≡ answer self.old packet.now) }
        ensures ok { OnOk result (self.new ≡ after self.old packet.now) }
        ensures memory { OnErr result (answer self.old packet.now ≡ Partial) }
        ensures at_start { OnErr result (packet.now.start ≡ true) }
        ensures err { OnErr result (self.new ≡ self.old) }
    {
        let mut message = Body::new();
        let given = self.feed_into(packet, &mut message)?;
        Ok(given.with(message))
    }

    /// As [`Assembler::feed`], with a message that the packet completes put into `message`. Where it completes none,
    /// what `message` then holds is not specified.
    ///
    /// # Errors
    ///
    /// As [`Assembler::feed`].
    pub fn feed_into(
        &mut self,
        packet: &PacketRef<'_>,
        message: &mut Body,
    ) -> Result<Assembled, Memory>
        ensures fed { IfOk result (λ given. fed_with message.new.items given ≡ answer self.old packet.now) }
        ensures ok { OnOk result (self.new ≡ after self.old packet.now) }
        ensures memory { OnErr result (answer self.old packet.now ≡ Partial) }
        ensures at_start { OnErr result (packet.now.start ≡ true) }
        ensures err { OnErr result (self.new ≡ self.old) }
    {
        let given = self.feed_without_ending(packet, message)?;
        if let Assembled::Whole = given {
            self.forget(Key::of(packet));
        }
        Ok(given)
    }

    /// As [`Assembler::feed_into`], but that a packet which completes a message leaves the assembler as it was: the
    /// caller ends its assembly by [`Assembler::forget`] once it has done with the message (DSP0236, "Message
    /// assembly").
    ///
    /// # Errors
    ///
    /// As [`Assembler::feed`].
    pub fn feed_without_ending(
        &mut self,
        packet: &PacketRef<'_>,
        message: &mut Body,
    ) -> Result<Assembled, Memory>
        ensures fed { IfOk result (λ given. fed_with message.new.items given ≡ answer self.old packet.now) }
        ensures ok { OnOk result (self.new ≡ after_without_ending self.old packet.now) }
        ensures memory { OnErr result (answer self.old packet.now ≡ Partial) }
        ensures at_start { OnErr result (packet.now.start ≡ true) }
        ensures err { OnErr result (self.new ≡ self.old) }
    {
        self.messages
            .take(Key::of(packet).number(), packet, message)
    }

    /// As [`Assembler::feed`], for a packet that is not an end packet, and so completes no message.
    ///
    /// # Errors
    ///
    /// As [`Assembler::feed`].
    pub fn feed_part(&mut self, packet: &PacketRef<'_>) -> Result<Assembled, Memory>
        requires { packet.now.end ≡ false }
        ensures fed { IfOk result (λ given. fed_with [] given ≡ answer self.old packet.now) }
        ensures ok { OnOk result (self.new ≡ after self.old packet.now) }
        ensures memory { OnErr result (answer self.old packet.now ≡ Partial) }
        ensures at_start { OnErr result (packet.now.start ≡ true) }
        ensures err { OnErr result (self.new ≡ self.old) }
    {
        self.messages.take_part(Key::of(packet).number(), packet)
    }

    /// What [`Assembler::feed`] would give for this packet; nothing is changed.
    pub fn look(&self, packet: &PacketRef<'_>) -> Fed
        ensures { result ≡ answer self.now packet.now }
    {
        let mut message = Body::new();
        let given = self.look_into(packet, &mut message);
        given.with(message)
    }

    /// As [`Assembler::look`], with a message that the packet completes put into `message`. Where it completes none,
    /// what `message` then holds is not specified.
    pub fn look_into(&self, packet: &PacketRef<'_>, message: &mut Body) -> Assembled
        ensures { fed_with message.new.items result ≡ answer self.now packet.now }
    {
        match self.messages.get(Key::of(packet).number()) {
            Some(buffer) => buffer.look_into(packet, message),
            None => look_alone(packet, message),
        }
    }

    /// Ends the assembly of this key, if there is one.
    #[inline(always)]
    pub fn forget(&mut self, key: Key)
        ensures { self.new ≡ map.remove self.old key }
    {
        self.messages.remove(key.number());
    }

    /// Whether an assembly of this key is in progress.
    pub fn is_open(&self, key: Key) -> bool
        ensures { result ≡ map.contains_key self.now key }
    {
        self.messages.get(key.number()).is_some()
    }

    /// How many assemblies are in progress: at most [`MAX_ASSEMBLIES`], each of at most
    /// [`MAX_MESSAGE_BYTES`] bytes.
    pub fn pending(&self) -> usize
        ensures value { result ≡ map.len self.now }
        ensures few { result ≤ MAX_ASSEMBLIES }
        ensures small { (key : Key) → IfSome (map.get self.now key) (λ o. length o.bytes ≤ MAX_MESSAGE_BYTES) }
    {
        self.messages.len()
    }
}
