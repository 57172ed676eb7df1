//! Tests of the two ends, each by itself, over public calls.

mod endpoint;
mod requester;
mod responder;
mod update;
