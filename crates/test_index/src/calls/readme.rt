//! The answers that the README states beside its program; `scripts/documents` compares these rows with its lines.
use example_callers::readme::ask;
use std::alloc::Global;

/// A position and a rank, and the answers to both queries.
type Row = (usize, usize, Option<usize>, Option<usize>);

/// The rows of the README.
const ROWS: [Row; 3] = [
    (101, 0, Some(1), Some(100)),
    (2048, 1, Some(1), None),
    (2049, 0, None, Some(100)),
];

/// Whether the program answers a row as it says.
fn is_answered(alloc: Global, (index, rank, ranked, selected): Row) -> bool {
    match ask(alloc, index, rank) {
        Ok((by_rank, by_select)) => by_rank == ranked && by_select == selected,
        Err(_) => false,
    }
}

#[test]
fn the_program_of_the_readme_answers_what_the_readme_says(rt: HostRuntime) {
    for row in ROWS {
        assert!(rt; is_answered(rt.alloc(), row));
    }
}
