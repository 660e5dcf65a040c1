//! Blocks of each kind that are built of a text and queried; texts that no block is built of.
use program_base::runs::Form;
use program_files::blocks::{Failure, Kind, build, query};
use std::process::Abort;
use std::test::Fail;

/// The questions to bits with 1 bits at the positions 3, 9 and 100 alone.
const BITS_QUESTIONS: &str = "get 3\nget 4\nget 100\nget 101\nget 18446744073709551615\n\
    rank 10\nrank 101\nrank 102\nrank0 10\nselect 0\nselect 2\nselect 3\nselect0 3\nselect0 98\n\
    next 4\nnext 101\nnext0 3\nprevious 8\nprevious 2\nprevious 1000\nprevious0 9\n";

/// Their answers.
const BITS_ANSWERS: &str = "1\n0\n1\nnone\nnone\n\
    2\n3\nnone\n8\n3\n100\nnone\n4\nnone\n\
    9\nnone\n4\n3\nnone\n100\n8\n";

/// Compares what the block of a text answers to the lines of another, and whether each is a question.
fn expect_answers(
    rt: &(impl Abort + AllocGlobal),
    (kind, text): (Kind, &str),
    questions: &str,
    answers: &str,
    good: bool,
) -> Result<(), Fail> {
    let mut block = Vec::new(rt.alloc());
    build(rt.alloc(), kind, text.as_bytes(), &mut block)?;
    let mut out = Vec::new(rt.alloc());
    assert_eq!(rt;
        query(
            rt.alloc(),
            block.as_slice(),
            questions.as_bytes(),
            Form::Text,
            &mut out
        )?,
        good
    );
    assert!(rt; out.as_slice() == answers.as_bytes());
    Ok(())
}

/// Compares why there is no block of a text.
fn expect_failure(
    rt: &(impl Abort + AllocGlobal),
    kind: Kind,
    text: &str,
    failure: Failure,
) -> Result<(), Fail> {
    let mut out = Vec::new(rt.alloc());
    assert_eq!(rt;
        build(rt.alloc(), kind, text.as_bytes(), &mut out),
        Err(failure)
    );
    assert!(rt; out.is_empty());
    Ok(())
}

#[test]
fn positions_in_any_order_are_those_of_the_bits(rt: HostRuntime) -> Result<(), Fail> {
    let text = (Kind::Bits, "9\n3\n\n100\n3");
    expect_answers(&rt, text, BITS_QUESTIONS, BITS_ANSWERS, true)?;
    let none = "get 0\nrank 0\nrank 1\nselect 0\nnext 0\nprevious 0\n";
    let answers = "none\n0\nnone\nnone\nnone\nnone\n";
    expect_answers(&rt, (Kind::Bits, ""), none, answers, true)?;
    let text = (Kind::Bits, "0");
    expect_answers(
        &rt,
        text,
        "child 0 0\nparent 0\nget 0 0\n",
        "bad question\nbad question\nbad question\n",
        false,
    )
}

#[test]
fn sparse_bits_answer_as_bits_do(rt: HostRuntime) -> Result<(), Fail> {
    let text = (Kind::Sparse, "3\n9\n100\n");
    expect_answers(&rt, text, BITS_QUESTIONS, BITS_ANSWERS, true)?;
    let far = (Kind::Sparse, "5\n1000000000000");
    let questions = "rank 1000000000001\nselect 1\nselect0 5\nnext 6\nget 999999999999\n";
    expect_answers(
        &rt,
        far,
        questions,
        "2\n1000000000000\n6\n1000000000000\n0\n",
        true,
    )
}

#[test]
fn a_sequence_answers_by_its_numbers(rt: HostRuntime) -> Result<(), Fail> {
    let text = (Kind::Sequence, "2\n3\n5\n5\n11");
    let questions =
        "get 3\nget 5\nrank 5\nrank 6\nrank 12\nnext 4\nnext 12\nprevious 4\nprevious 1\nrank0 3\n";
    let answers = "5\nnone\n2\n4\n5\n5\nnone\n3\nnone\nbad question\n";
    expect_answers(&rt, text, questions, answers, false)?;
    let text = (Kind::Sequence, "18446744073709551615");
    expect_answers(
        &rt,
        text,
        "get 0\nnext 1\n",
        "18446744073709551615\n18446744073709551615\n",
        true,
    )?;
    expect_answers(
        &rt,
        (Kind::Sequence, ""),
        "get 0\nrank 5\nnext 0\n",
        "none\n0\nnone\n",
        true,
    )
}

#[test]
fn a_tree_answers_by_its_degrees(rt: HostRuntime) -> Result<(), Fail> {
    let text = (Kind::Tree, "2\n0\n1\n0\n");
    let questions = "parent 3\nparent 0\nchild 0 1\nchild 0 2\ndegree 0\ndegree 4\n";
    expect_answers(&rt, text, questions, "2\nnone\n2\nnone\n2\nnone\n", true)?;
    let questions =
        "next_sibling 1\nnext_sibling 2\nprevious_sibling 2\nchild_rank 2\nchild_rank 0\nget 1\n";
    expect_answers(
        &rt,
        text,
        questions,
        "2\nnone\n1\n1\nnone\nbad question\n",
        false,
    )
}

#[test]
fn a_line_out_of_order_is_named(rt: HostRuntime) -> Result<(), Fail> {
    expect_failure(&rt, Kind::Sequence, "1\n\n3\n2\n", Failure::OutOfOrder(3))?;
    expect_failure(&rt, Kind::Sparse, "1\n1", Failure::OutOfOrder(1))?;
    expect_failure(&rt, Kind::Sequence, "3\n1\nx", Failure::WrongLine(2))?;
    expect_failure(&rt, Kind::Bits, "3\n-1", Failure::WrongLine(1))
}

#[test]
fn numbers_that_no_block_holds_are_refused(rt: HostRuntime) -> Result<(), Fail> {
    expect_failure(&rt, Kind::Tree, "2\n0", Failure::NotATree)?;
    expect_failure(&rt, Kind::Tree, "", Failure::NotATree)?;
    expect_failure(&rt, Kind::Bits, "18446744073709551615", Failure::TooLarge)?;
    expect_failure(&rt, Kind::Sparse, "18446744073709551615", Failure::TooLarge)
}
