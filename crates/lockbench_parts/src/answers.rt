//! What does the table answer to a caller that takes a lock?
use lt_rules::Reply;
use lt_table::{Answer, StepError};

/// Some if the acquire took a lock that was free.
pub fn is_taken(answered: Result<Answer, StepError>) -> Option<()> {
    match answered {
        Ok(answer) if answer.reply == Reply::Taken => Some(()),
        _ => None,
    }
}
