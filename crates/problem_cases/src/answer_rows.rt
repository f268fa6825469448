// What is decided, and what certificates show.
use crate::rows::{Stop, name_of, number_of, parts, shown};
use answer_lines::{Checked, verify};
use catalog_choice::{
    Answer, Decided, ask_view, decide_nothing, decide_text, resolve_text, verify_text,
};
use object_store::View;
use olm_base::Bytes;
use one_subscription::asked_view;
use problem_build::BuildFault;
use std::alloc::Global;

/// The most bytes of a certificate.
const CERTIFICATE_LIMIT: usize = 65_536;

fn put_fault(out: &mut String, fault: BuildFault) -> Result<(), Stop> {
    match fault {
        BuildFault::TooManyVariables { count } => Ok(writeln!(out, "{count} are too many")?),
        BuildFault::Memory => Err(Stop::Memory),
    }
}

// What is printed of a decision, and what became of it.
fn put_answer(out: &mut String, answer: &Answer) -> Result<(), Stop> {
    out.push_str(shown(&answer.text))?;
    let decided = match answer.decided {
        Decided::Chosen => "= chosen\n",
        Decided::Refused => "= refused\n",
        Decided::Undecided => "= undecided\n",
    };
    Ok(out.push_str(decided)?)
}

fn put_answered(out: &mut String, answer: &Result<Answer, BuildFault>) -> Result<(), Stop> {
    match answer {
        Ok(answer) => put_answer(out, answer),
        Err(fault) => put_fault(out, *fault),
    }
}

// Whether a certificate is accepted, and its line.
fn put_checked(out: &mut String, checked: &Checked) -> Result<(), Stop> {
    out.push_str(if checked.accepted { "yes: " } else { "no: " })?;
    Ok(out.push_str(shown(&checked.line))?)
}

// A certificate, whose lines end in slashes.
fn certificate_of(alloc: Global, words: &str) -> Result<Vec<u8>, Stop> {
    let mut text = Vec::from_slice(alloc, words.as_bytes())?;
    for byte in text.iter_mut() {
        if *byte == b'/' {
            *byte = b'\n';
        }
    }
    Ok(text)
}

/// `decide NAMESPACE/BUDGET`: what is printed of the decision.
pub fn decide_row(alloc: Global, out: &mut String, view: &View, word: &str) -> Result<(), Stop> {
    let budget = number_of(word)?;
    let answer = decide_text(alloc, view, budget);
    put_answered(out, &answer)
}

fn put_accepted(
    alloc: Global,
    out: &mut String,
    view: &View,
    certificate: &[u8],
) -> Result<(), Stop> {
    if certificate.len() > CERTIFICATE_LIMIT {
        return Err(Stop::Row);
    }
    match ask_view(alloc, view) {
        Ok(question) => {
            let checked = verify(alloc, &question.problem, certificate)?;
            put_checked(out, &checked)
        }
        Err(fault) => put_fault(out, fault),
    }
}

/// `accept NAMESPACE/CERTIFICATE`: what a certificate shows of the namespace's problem.
pub fn accept_row(alloc: Global, out: &mut String, view: &View, words: &str) -> Result<(), Stop> {
    let certificate = certificate_of(alloc, words)?;
    put_accepted(alloc, out, view, &certificate)
}

/// `nothing BUDGET`: what is printed where nothing is asked.
pub fn nothing_row(alloc: Global, out: &mut String, word: &str) -> Result<(), Stop> {
    let answer = decide_nothing(alloc, number_of(word)?)?;
    put_answer(out, &answer)
}

fn body_of(alloc: Global, text: &[u8]) -> Result<Bytes, Stop> {
    Ok(Bytes::from_vec(Vec::from_slice(alloc, text)?))
}

/// `resolve PACKAGE/CHANNEL/BUDGET`: what is printed of the text's package and channel.
pub fn resolve_row(alloc: Global, out: &mut String, text: &[u8], words: &str) -> Result<(), Stop> {
    let (package_name, words) = parts(words)?;
    let (channel, budget) = parts(words)?;
    let budget = number_of(budget)?;
    let answer = resolve_text(
        alloc,
        body_of(alloc, text)?,
        package_name.as_bytes(),
        channel.as_bytes(),
        budget,
    );
    put_answered(out, &answer)
}

fn put_verified(
    alloc: Global,
    out: &mut String,
    text: &[u8],
    package_name: &str,
    channel: &str,
    certificate: &[u8],
) -> Result<(), Stop> {
    if certificate.len() > CERTIFICATE_LIMIT {
        return Err(Stop::Row);
    }
    match verify_text(
        alloc,
        body_of(alloc, text)?,
        package_name.as_bytes(),
        channel.as_bytes(),
        certificate,
    ) {
        Ok(checked) => put_checked(out, &checked),
        Err(fault) => put_fault(out, fault),
    }
}

/// `verify PACKAGE/CHANNEL/CERTIFICATE`: what a certificate shows of the text's package and channel.
pub fn verify_row(alloc: Global, out: &mut String, text: &[u8], words: &str) -> Result<(), Stop> {
    let (package_name, words) = parts(words)?;
    let (channel, words) = parts(words)?;
    let certificate = certificate_of(alloc, words)?;
    put_verified(alloc, out, text, package_name, channel, &certificate)
}

// How many writes a view is of, and the versions of its slots.
fn put_versions(out: &mut String, view: &View) -> Result<(), Stop> {
    write!(out, "  after {} writes:", view.length())?;
    for (key, slot) in view.slots() {
        let version = slot.slot().version;
        write!(out, " {}, version {version};", shown(key.name.as_bytes()))?;
    }
    Ok(out.push('\n')?)
}

/// `asked PACKAGE/CHANNEL`: the view of the text as a catalog and of a subscription to it.
pub fn asked_row(alloc: Global, out: &mut String, text: &[u8], words: &str) -> Result<(), Stop> {
    let (package_name, channel) = parts(words)?;
    let package_name = name_of(alloc, package_name)?;
    let channel = name_of(alloc, channel)?;
    let view = asked_view(alloc, body_of(alloc, text)?, &package_name, &channel)?;
    put_versions(out, &view)
}
