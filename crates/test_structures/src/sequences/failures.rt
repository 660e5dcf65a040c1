//! What a run ends with and says: statuses and texts, writers that fail, and files that can't be read. No clause says
//! what a text or a status of `start` is over a file, nor that `run` does not say of itself that a write failed. The
//! name of a test is the sentence that it shows.
use program_base::session::{WriteFailed, run, start};
use std::alloc::Global;
use std::fs;
use std::process::Abort;
use std::rt::Files;
use std::test::Fail;
use test_writers::Failing;

/// Four lines.
const FOUR_LINES: &str = "words 5\nrank 1\nbuild simple\nrank 3\n";

/// The answers to the four lines.
const FOUR_ANSWERS: &str = "ok 1\nnot built\nones 2\n2\n";

/// Whether `run` answers the four lines over a writer that fails after the given number of writes; `None` where an
/// answer is another than by hand.
fn answers_over(alloc: Global, writes_left: u32) -> Option<bool> {
    let mut out = Failing::new(alloc, writes_left, true);
    match run(alloc, FOUR_LINES.as_bytes(), &mut out) {
        Err(WriteFailed) => Some(false),
        Ok(good) => {
            let is_right = good && out.written.as_slice() == FOUR_ANSWERS.as_bytes();
            if is_right { Some(true) } else { None }
        }
    }
}

/// The least number of writes by which `run` answers, below 100; `None` where one before it is another than by hand.
fn enough_to_run(alloc: Global) -> Option<u32> {
    for writes_left in 0..100 {
        if answers_over(alloc, writes_left)? {
            return Some(writes_left);
        }
    }
    None
}

#[test]
fn run_reports_that_a_write_failed_and_else_answers_all(rt: HostRuntime) -> Result<(), Fail> {
    assert!(rt; enough_to_run(rt.alloc()).is_some_and(|writes| writes >= 4));
    Ok(())
}

/// These words, as arguments of a program.
fn strings(alloc: Global, words: &[&str]) -> Result<Vec<String>, Fail> {
    let mut args = Vec::new(alloc);
    for word in words {
        args.push(String::from_str(alloc, word)?)?;
    }
    Ok(args)
}

/// Whether `start` ends with this status and writes these texts.
fn starts(
    rt: &(impl Files + AllocGlobal),
    args: &[String],
    status: u8,
    out_text: &str,
    err_text: &str,
) -> bool {
    let mut out = Vec::new(rt.alloc());
    let mut err = Vec::new(rt.alloc());
    let is_status = start(rt, args, &mut out, &mut err) == status;
    let is_out = out.as_slice() == out_text.as_bytes();
    is_status && is_out && err.as_slice() == err_text.as_bytes()
}

/// Runs `start` with these arguments and compares its status and its output.
fn expect_start(
    rt: &(impl Abort + Files + AllocGlobal),
    words: &[&str],
    status: u8,
    out_text: &str,
    err_text: &str,
) -> Result<(), Fail> {
    let args = strings(rt.alloc(), words)?;
    assert!(rt; starts(rt, args.as_slice(), status, out_text, err_text));
    Ok(())
}

#[test]
fn start_ends_with_the_status_and_text_of_its_file(rt: HostRuntime) -> Result<(), Fail> {
    let usage = "usage: bitm_vectors FILE\n";
    let cannot_read = "bitm_vectors: cannot read the file\n";
    expect_start(&rt, &[], 2, "", usage)?;

    let path = "bitm_vectors_statuses.txt";
    expect_start(&rt, &[path, "no_such_file.txt"], 2, "", usage)?;
    expect_start(&rt, &["no_such_file.txt"], 2, "", cannot_read)?;
    expect_start(&rt, &["."], 2, "", cannot_read)?;

    fs::write(&rt, path, "word 5\n")?;
    expect_start(&rt, &[path], 1, "bad command\n", "")?;
    fs::write(&rt, path, "words 5\n")?;
    expect_start(&rt, &[path], 0, "ok 1\n", "")?;
    fs::remove_file(&rt, path)?;
    Ok(())
}

/// What `start` says where it cannot write.
const CANNOT_WRITE: &str = "bitm_vectors: cannot write\n";

/// The answer of `start` over this writer, and its output to the other one.
fn start_over(
    rt: &(impl Files + AllocGlobal),
    args: &[String],
    out: &mut Failing,
) -> (u8, Vec<u8>) {
    let mut err = Vec::new(rt.alloc());
    let status = start(rt, args, out, &mut err);
    (status, err)
}

/// Whether `start` answers the four lines over a writer that fails after the given number of writes; `None` where its
/// status or a text is another than by hand.
fn starts_over(rt: &(impl Files + AllocGlobal), args: &[String], writes_left: u32) -> Option<bool> {
    let mut out = Failing::new(rt.alloc(), writes_left, true);
    let (status, text) = start_over(rt, args, &mut out);
    let is_answered = status == 0 && text.is_empty();
    if is_answered && out.written.as_slice() == FOUR_ANSWERS.as_bytes() {
        return Some(true);
    }
    if status == 2 && text.as_slice() == CANNOT_WRITE.as_bytes() {
        return Some(false);
    }
    None
}

/// The least number of writes by which `start` answers, below 100; `None` where one before it is another than by hand.
fn enough_to_start(rt: &(impl Files + AllocGlobal), args: &[String]) -> Option<u32> {
    for writes_left in 0..100 {
        if starts_over(rt, args, writes_left)? {
            return Some(writes_left);
        }
    }
    None
}

/// The least number of writes by which `start` answers the four lines in this file.
fn enough_for_file(rt: &(impl Files + AllocGlobal), path: &str) -> Result<Option<u32>, Fail> {
    let args = strings(rt.alloc(), &[path])?;
    Ok(enough_to_start(rt, args.as_slice()))
}

#[test]
fn start_reports_that_a_write_failed_and_else_answers_all(rt: HostRuntime) -> Result<(), Fail> {
    let path = "bitm_vectors_failed_writes.txt";
    fs::write(&rt, path, FOUR_LINES)?;
    let enough = enough_for_file(&rt, path)?;
    assert!(rt; enough.is_some_and(|writes| writes >= 4));
    fs::remove_file(&rt, path)?;
    Ok(())
}

/// Whether `start` over the four lines in this file and a writer that cannot be flushed ends with status 2, and says
/// why.
fn reports_flush(rt: &(impl Files + AllocGlobal), path: &str) -> Result<bool, Fail> {
    let args = strings(rt.alloc(), &[path])?;
    let mut out = Failing::new(rt.alloc(), 100, false);
    let (status, text) = start_over(rt, args.as_slice(), &mut out);
    Ok(status == 2 && text.as_slice() == CANNOT_WRITE.as_bytes())
}

/// What `start` without arguments ends with over a writer of texts that fails.
fn status_unreported(rt: &(impl Files + AllocGlobal)) -> u8 {
    let mut out = Vec::new(rt.alloc());
    let mut err = Failing::new(rt.alloc(), 0, true);
    start(rt, &[], &mut out, &mut err)
}

#[test]
fn a_failed_flush_or_text_ends_start_with_status_2(rt: HostRuntime) -> Result<(), Fail> {
    let path = "bitm_vectors_failed_flush.txt";
    fs::write(&rt, path, FOUR_LINES)?;
    assert!(rt; reports_flush(&rt, path)?);
    fs::remove_file(&rt, path)?;
    assert!(rt; status_unreported(&rt) == 2);
    Ok(())
}
