//! Rows about charts, in parts of three sorts: what the machine of a chart's table does, what the texts of charts come
//! to, and what the images of charts do. The first and the last are answered by a line each: one that begins with
//! `chart` is the text of a chart, and the rows behind it ask about that. They stand in tests/cases/charts and
//! tests/cases/compiled; tests/chart_texts tells the form of texts.

mod compiled;
mod judging;
mod machine;
mod parts;
mod playing;
mod reading;
mod reducing;
mod tables;
mod texts;

pub(crate) use parts::answer_part;
