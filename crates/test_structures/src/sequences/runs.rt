//! Whole runs: the answers to the lines of an input. The contract of `run` fixes them; they are tested all the same,
//! worked out by hand, since it does so by definitions, and since a compiler turns the proved code into the program.
//! The name of a test is the sentence that it shows.
use program_base::session::run;
use std::alloc::Global;
use std::process::Abort;
use std::test::Fail;

/// Whether the answers to an input are `text`, and whether each line was a command is `good`.
fn is_answered(alloc: Global, input: &str, text: &str, good: bool) -> Result<bool, Fail> {
    let mut out = Vec::new(alloc);
    let got_good = run(alloc, input.as_bytes(), &mut out)?;
    Ok(out.as_slice() == text.as_bytes() && got_good == good)
}

/// Compares the answers to an input with `text`, and whether each line was a command with `good`.
fn expect_answers(
    rt: &(impl Abort + AllocGlobal),
    input: &str,
    text: &str,
    good: bool,
) -> Result<(), Fail> {
    assert!(rt; is_answered(rt.alloc(), input, text, good)?, "at {input:?}");
    Ok(())
}

/// The lines of rows, or the answers, one below the other.
fn column(alloc: Global, rows: &[(&str, &str)], of_answers: bool) -> Result<String, Fail> {
    let mut text = String::new(alloc);
    for (line, answer) in rows {
        text.push_str(if of_answers { answer } else { line })?;
        text.push_str("\n")?;
    }
    Ok(text)
}

/// Compares the answers to an input with the answers of rows.
fn expect_rows(
    rt: &(impl Abort + AllocGlobal),
    input: &str,
    rows: &[(&str, &str)],
    good: bool,
) -> Result<(), Fail> {
    let text = column(rt.alloc(), rows, true)?;
    expect_answers(rt, input, text.as_str(), good)
}

/// Compares the answer to each line with the one beside it, in one session.
fn expect_session(
    rt: &(impl Abort + AllocGlobal),
    rows: &[(&str, &str)],
    good: bool,
) -> Result<(), Fail> {
    let input = column(rt.alloc(), rows, false)?;
    expect_rows(rt, input.as_str(), rows, good)
}

#[test]
fn a_simple_index_answers_rank_until_a_bit_changes(rt: HostRuntime) -> Result<(), Fail> {
    let rows = [
        ("words 0 0", "ok 2"),
        ("set 3", "ok 3"),
        ("set 65", "ok 65"),
        ("clear 3", "ok 3"),
        ("build simple", "ones 1"),
        ("rank 66", "1"),
        ("rank 128", "1"),
    ];
    expect_session(&rt, &rows, true)?;
    let rows = [
        ("words 5", "ok 1"),
        ("rank 1", "not built"),
        ("build simple", "ones 2"),
        ("rank 3", "2"),
        ("set 64", "none"),
        ("rank 3", "2"),
        ("clear 0", "ok 0"),
        ("rank 3", "not built"),
    ];
    expect_session(&rt, &rows, true)
}

#[test]
fn bits_are_answered_as_the_number_of_their_range(rt: HostRuntime) -> Result<(), Fail> {
    let rows = [
        ("words d 6", "ok 2"),
        ("bits 64 3", "6"),
        ("bits 62 5", "24"),
        ("bits 128 0", "none"),
        ("bits 0 64", "bad command"),
        ("bits 0", "bad command"),
        ("bits 0 1 2", "bad command"),
        ("bits 18446744073709551615 63", "none"),
    ];
    expect_session(&rt, &rows, false)
}

#[test]
fn each_kind_of_index_answers_what_it_can(rt: HostRuntime) -> Result<(), Fail> {
    let rows = [
        ("words d 6", "ok 2"),
        ("rank 1", "not built"),
        ("build binary", "ones 5"),
        ("rank 67", "5"),
        ("rank 128", "5"),
        ("rank 129", "none"),
        ("select 4", "66"),
        ("select0 0", "1"),
        ("bits 64 3", "6"),
        ("set 1", "ok 1"),
        ("select 0", "not built"),
        ("build simple", "ones 6"),
        ("rank0 4", "0"),
        ("select 0", "not built"),
        ("bits 0 64", "bad command"),
    ];
    expect_session(&rt, &rows, false)
}

#[test]
fn both_strategies_select_ones_and_zeros(rt: HostRuntime) -> Result<(), Fail> {
    let rows = [
        ("words d 6", "ok 2"),
        ("build binary", "ones 5"),
        ("rank0 127", "122"),
        ("rank0 128", "123"),
        ("rank0 129", "none"),
        ("select 5", "none"),
        ("select0 122", "127"),
        ("select0 123", "none"),
        ("select 18446744073709551615", "none"),
    ];
    expect_session(&rt, &rows, true)?;
    let rows = [
        ("words ffffffffffffffff 0", "ok 2"),
        ("build sampled", "ones 64"),
        ("select 63", "63"),
        ("select 64", "none"),
        ("select0 0", "64"),
        ("select0 63", "127"),
        ("select0 64", "none"),
    ];
    expect_session(&rt, &rows, true)
}

#[test]
fn positions_are_decimal_and_inside_the_vector(rt: HostRuntime) -> Result<(), Fail> {
    let rows = [
        ("words 0", "ok 1"),
        ("set 00000000000000000003", "ok 3"),
        ("set 64", "none"),
        ("set 18446744073709551615", "none"),
        ("set 18446744073709551616", "bad command"),
        (" set 1", "bad command"),
        ("bits 0 8", "8"),
    ];
    expect_session(&rt, &rows, false)
}

#[test]
fn a_line_that_is_no_command_changes_nothing(rt: HostRuntime) -> Result<(), Fail> {
    let rows = [
        ("words 7", "ok 1"),
        ("set 64", "none"),
        ("clear 000000000000000000002", "bad command"),
        ("build simple ", "bad command"),
        ("build other", "bad command"),
        ("rank 3", "not built"),
    ];
    expect_session(&rt, &rows, false)?;
    let rows = [
        ("words 00000000000000001", "bad command"),
        ("words 0x1", "bad command"),
        ("words  1", "bad command"),
        ("words 1 ", "bad command"),
        ("rank", "bad command"),
        ("rank 1\r", "bad command"),
    ];
    expect_session(&rt, &rows, false)
}

#[test]
fn a_vector_of_no_words_has_rank_0_alone(rt: HostRuntime) -> Result<(), Fail> {
    let rows = [
        ("words", "ok 0"),
        ("build simple", "ones 0"),
        ("rank 0", "0"),
        ("Rank 0", "bad command"),
    ];
    expect_session(&rt, &rows, false)
}

#[test]
fn empty_lines_are_passed_over_and_the_last_may_end_open(rt: HostRuntime) -> Result<(), Fail> {
    expect_answers(&rt, "", "", true)?;
    expect_answers(&rt, "words", "ok 0\n", true)?;
    let input = "\n\nwords FFFFFFFFFFFFFFFF ffffffffffffffff\n\n";
    expect_answers(&rt, input, "ok 2\n", true)
}

/// A line of 65,536 words, and what follows them.
fn most_words(alloc: Global, after: &str) -> Result<String, Fail> {
    let mut input = String::from_str(alloc, "words")?;
    for _ in 0..65536 {
        input.push_str(" 0")?;
    }
    input.push_str(after)?;
    Ok(input)
}

/// Whether the answers to 65,536 words and what follows them are `text`.
fn are_words_answered(alloc: Global, after: &str, text: &str, good: bool) -> Result<bool, Fail> {
    let input = most_words(alloc, after)?;
    is_answered(alloc, input.as_str(), text, good)
}

#[test]
fn a_vector_has_at_most_65536_words(rt: HostRuntime) -> Result<(), Fail> {
    assert!(rt; are_words_answered(rt.alloc(), "", "ok 65536\n", true)?);
    let (after, text) = (" 0\nset 0\n", "bad command\nnone\n");
    assert!(rt; are_words_answered(rt.alloc(), after, text, false)?);
    Ok(())
}
