//! An answer that is wanted: packets are seen until one answers a query.

use mctp_control::AnyQuery;
use mctp_packet::Body;
use std::marker::Model;

/// The query whose answer is wanted, if one is, and the message of the first packet that answered it.
#[derive(Drop)]
pub(crate) struct Wanted<'q> {
    query: Option<&'q AnyQuery>,
    answer: Option<Body>,
}

impl<'q> Model for Wanted<'q> {
    ghost use Rattle.std.specs.Prelude.{option_map};
    ghost use Rattle.pldm_line.specs.QueryTurns.{WantedAnswer};

    ghost Value = { WantedAnswer };

    ghost view = { λ w. record {
      query = option_map (λ query. query.now) w.query;
      answer = option_map (λ answer. answer.items) w.answer;
    } };
}

impl<'q> Wanted<'q> {
    ghost use Rattle.std.specs.Prelude.{◌≡◌, None, Some, is_none, option_map};
    ghost use Rattle.pldm_line.specs.QueryTurns.{seen, wanted_of};

    /// No answer.
    pub(crate) fn nothing() -> Wanted<'q>
        ensures { result ≡ wanted_of None None }
    {
        Wanted {
            query: None,
            answer: None,
        }
    }

    /// The answer to this query.
    pub(crate) fn answer_to(query: &'q AnyQuery) -> Wanted<'q>
        ensures { result ≡ wanted_of (Some query.entry.now) None }
    {
        Wanted {
            query: Some(query),
            answer: None,
        }
    }

    /// Sees a packet.
    pub(crate) fn see(&mut self, packet: &[u8])
        ensures { self.new ≡ seen self.old packet.now }
    {
        if self.answer.is_some() {
            return;
        }
        let Some(query) = self.query else {
            return;
        };
        let Some(message) = query.answer(packet) else {
            return;
        };
        let mut answer = Body::new();
        let _ = answer.try_extend_from_slice(message); // it fits
        self.answer = Some(answer);
    }

    /// Whether no answer has come.
    pub(crate) fn is_open(&self) -> bool
        ensures { result ≡ is_none self.now.answer }
    {
        self.answer.is_none()
    }

    /// The answer, where it has come.
    pub(crate) fn answer(self) -> Option<Body>
        ensures { option_map (λ answer. answer.items) result ≡ self.entry.answer }
    {
        self.answer
    }
}
