// The number of a job: causes 3 to 11 of refusal.
use model::Refusal;

// The lowest cause from 3 to 11 that applies.
fn judge(words: &[i32], question: &[u8], plan: &[u8]) -> Result<(), Refusal> {
    tables::check(words)?;
    let r = reader::read(words, question);
    r.told?;
    plan::admit(question, r.question, plan)
}

// Its number, 0 where none does.
pub(crate) fn number(words: &[i32], question: &[u8], plan: &[u8]) -> u8 {
    model::number(judge(words, question, plan))
}
