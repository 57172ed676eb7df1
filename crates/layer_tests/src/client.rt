//! Tests of a line's requester, over a clock and ports of their own, and of the table of sensors and effecters: records
//! and messages that were written from the standard's layouts. All over public calls.

mod asked;
mod lines;
mod queried;
mod table_rows;
