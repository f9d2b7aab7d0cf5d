//! The text of answers.

ghost use Rattle.std.specs.Prelude.{◌≡◌, ◌++◌, ◌∷◌, [], IfErr, IfOk, OnOk};
ghost use Rattle.csv.specs.Writing.{default_writer, row_text};
ghost use Rattle.trace_text.specs.AnswerText.{answer_row, answer_rows_text, answers_of, block_fields};
ghost use Rattle.trace_text.specs.AnswerText.{closing_row, reply_fields, word_of as the_word_of};

use crate::reply::{Answer, Reply};
use frame_text::RecordWriter;
use frame_words::Fault;
use itoa::Buffer;
use std::alloc::Global;

/// The text of answers, a record each, and last how many frames are held and free after them; the only fault is
/// lack of memory.
#[tactic(auto, unfolding(crate::specs::AnswerText::answers_of))]
pub fn answers_text(
    alloc: Global,
    answers: &[Answer],
    held: u32,
    free: u32,
) -> Result<Vec<u8>, Fault>
    ensures text { IfOk result (λ text. text.items ≡ answers_of answers.now held free) }
    ensures fault { IfErr result (λ e. e ≡ Fault.NoMemory) }
{
    let mut text = RecordWriter::new(alloc);
    add_answers(&mut text, answers)?;
    add_closing(&mut text, held, free)?;
    text.finish()
}

/// The text of answers, a record each, and no last one.
pub fn rows_text(alloc: Global, answers: &[Answer]) -> Result<Vec<u8>, Fault>
    ensures text { IfOk result (λ text. text.items ≡ answer_rows_text answers.now) }
    ensures fault { IfErr result (λ e. e ≡ Fault.NoMemory) }
{
    let mut text = RecordWriter::new(alloc);
    add_answers(&mut text, answers)?;
    text.finish()
}

// Adds answers.
#[tactic(auto, unfolding(crate::specs::AnswerText::answer_rows_text))]
fn add_answers(text: &mut RecordWriter, answers: &[Answer]) -> Result<(), Fault>
    ensures text { OnOk result (text.new ≡ text.old ++ answer_rows_text answers.now) }
    ensures fault { IfErr result (λ e. e ≡ Fault.NoMemory) }
{
    for answer in answers {
        add_answer(text, *answer)?;
    }
    Ok(())
}

// Adds an answer.
fn add_answer(text: &mut RecordWriter, answer: Answer) -> Result<(), Fault>
    ensures text { OnOk result
        (text.new ≡ text.old ++ row_text default_writer (answer_row answer)) }
    ensures fault { IfErr result (λ e. e ≡ Fault.NoMemory) }
{
    let (mut line_text, mut core_text) = (Buffer::new(), Buffer::new());
    let line = line_text.format(answer.line).as_bytes();
    let core = core_text.format(answer.core).as_bytes();
    let (word, block) = parts_of(answer.reply);
    match block {
        Some((frame, order)) => {
            let (mut frame_text, mut order_text) = (Buffer::new(), Buffer::new());
            let frame = frame_text.format(frame).as_bytes();
            let order = order_text.format(order).as_bytes();
            text.add(&[line, core, word, frame, order])
        }
        None => text.add(&[line, core, word, b"", b""]),
    }
}

// The word for a reply, and the block that it names.
fn parts_of(reply: Reply) -> (&'static [u8], Option<(u32, u8)>)
    ensures { reply_fields reply ≡ result.0.now ∷ block_fields result.1 }
{
    match reply {
        Reply::Taken(frame, order) => (b"Taken", Some((frame, order))),
        Reply::Given(frame, order) => (b"Given", Some((frame, order))),
        Reply::Moved(frame, order) => (b"Moved", Some((frame, order))),
        Reply::Refused(fault) => (word_of(fault), None),
    }
}

// The word for a refusal.
fn word_of(fault: Fault) -> &'static [u8]
    ensures { result.now ≡ the_word_of fault }
{
    match fault {
        Fault::BadOrder => b"BadOrder",
        Fault::NoBlock => b"NoBlock",
        Fault::Contended => b"Contended",
        Fault::NotHeld => b"NotHeld",
        _ => b"",
    }
}

// Adds how many frames are held and free at the end.
fn add_closing(text: &mut RecordWriter, held: u32, free: u32) -> Result<(), Fault>
    ensures text { OnOk result
        (text.new ≡ text.old ++ row_text default_writer (closing_row held free)) }
    ensures fault { IfErr result (λ e. e ≡ Fault.NoMemory) }
{
    let (mut held_text, mut free_text) = (Buffer::new(), Buffer::new());
    let held = held_text.format(held).as_bytes();
    let free = free_text.format(free).as_bytes();
    text.add(&[b"end", b"", b"Closed", held, free])
}
