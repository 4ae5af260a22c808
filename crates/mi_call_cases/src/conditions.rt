//! Calls of conditions and of formatted text, over the look-ups that are given.

use mi_cond::{Cond, CondError, CondFault};
use mi_format::{FormatError, FormatFault, LimitError, LimitFault, expand, expand_within};
use mi_lines::Call;
use mi_text::PlainEnv;

/// Adds the value of a condition.
pub fn say_condition(lookups: &PlainEnv, call: &mut Call<'_>) {
    let text = call.text(0);
    match &Cond::read(call.alloc(), text) {
        Ok(condition) if condition.value(lookups) => call.say_word("true"),
        Ok(_) => call.say_word("false"),
        Err(CondError::NoMemory) => call.no_memory(),
        Err(CondError::Fault(CondFault::Syntax(place))) => call.say_number("Syntax", *place),
        Err(CondError::Fault(CondFault::TooDeep(place))) => call.say_number("TooDeep", *place),
    }
}

/// Adds the expansion of a text.
pub fn say_expanded(lookups: &PlainEnv, call: &mut Call<'_>) {
    let text = call.text(0);
    match &expand(call.alloc(), text, lookups) {
        Ok(expanded) => call.say(expanded.as_bytes()),
        Err(FormatError::NoMemory) => call.no_memory(),
        Err(FormatError::Fault(FormatFault::TooDeep)) => call.say_word("TooDeep"),
    }
}

/// Adds the expansion of a text where it has at most so many bytes.
pub fn say_within(lookups: &PlainEnv, call: &mut Call<'_>) {
    let limit = call.size(0);
    let text = call.text(1);
    match &expand_within(call.alloc(), text, lookups, limit) {
        Ok(expanded) => call.say(expanded.as_bytes()),
        Err(LimitError::NoMemory) => call.no_memory(),
        Err(LimitError::Fault(LimitFault::TooDeep)) => call.say_word("TooDeep"),
        Err(LimitError::Fault(LimitFault::TooLong)) => call.say_word("TooLong"),
    }
}
