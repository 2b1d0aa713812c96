//! What texts read as, and the first line and check that refuses a text.
mod charts;
mod cuts;
mod describe;
mod generated;
mod guards;
mod limits;
mod order;
mod refusals;
mod rows;
mod shown;
mod table;
mod tables;
mod words;
