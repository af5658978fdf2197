// Whether a line's figures are what we say.
use crate::operation::operation;
use act::act::Act;
use isa::form::Form;
use std::str::SplitWhitespace;

#[derive(Clone, Copy)]
pub(crate) enum Verdict {
    // GNU uses our form
    Same,
    // GNU uses another form of the same act
    OtherForm,
    // GNU uses a form that is not in our table
    OutsideTable,
}

// A form written in four or eight hexadecimal digits.
fn form(digits: &str) -> Option<Form> {
    if digits.len() == 4 {
        u16::from_str_radix(digits, 16).ok().map(Form::Short)
    } else {
        u32::from_str_radix(digits, 16).ok().map(Form::Long)
    }
}

fn number(words: &mut SplitWhitespace<'_>) -> Option<u32> {
    words.next()?.parse::<u32>().ok()
}

// Our form and GNU's for one act.
fn compare(act: Act, ours: &str, gnu: Form) -> Option<Verdict> {
    let used = act.form();
    if form(ours)? != used {
        return None;
    }
    let Some(read) = Act::spelled_by(gnu) else {
        return Some(Verdict::OutsideTable);
    };
    if gnu == used {
        return Some(Verdict::Same);
    }
    (read == act).then_some(Verdict::OtherForm)
}

// What a line says of us and GNU; none where that is not so.
pub(crate) fn judge(line: &str) -> Option<Verdict> {
    let mut words = line.split_whitespace();
    let ours = words.next()?;
    let gnu = form(words.next()?)?;
    let name = words.next()?;
    let numbers = [
        number(&mut words)?,
        number(&mut words)?,
        number(&mut words)?,
    ];
    match Act::new(operation(name, numbers)?) {
        Ok(act) => compare(act, ours, gnu),
        Err(_) if ours == "none" && Act::spelled_by(gnu).is_none() => Some(Verdict::OutsideTable),
        Err(_) => None,
    }
}
