//! Whether the given labels fit a tree.
ghost use Rattle.std.specs.Prelude.{◌≡◌, ◌+◌, ◌-◌, ◌<◌, ◌≤◌, ◌↔◌, ◌∷◌, IsTrue, ℕ, length, slice_index};
ghost use Rattle.louds.specs.Labels.{AreLabels, Rise};
ghost use Rattle.louds.specs.Tree.{IsTree};

use louds::all_fit;

/// Whether the labels of the nodes from `first` on and before `past` rise.
fn rise_between(labels: &[u64], first: usize, past: usize) -> bool
    requires some { 0 < first }
    requires inside { past ≤ length labels.now + 1 }
    ensures { IsTrue result ↔ ((v : ℕ) → first ≤ v → v + 1 < past
        → slice_index (0 ∷ labels.now) v < slice_index (0 ∷ labels.now) (v + 1)) }
{
    for node in first..past {
        if node + 1 < past && labels[node] <= labels[node - 1] {
            return false;
        }
    }
    true
}

/// Whether the labels of siblings rise.
fn siblings_rise(degrees: &[usize], labels: &[u64]) -> bool
    requires tree { IsTree degrees.now }
    requires count { length labels.now + 1 ≡ length degrees.now }
    ensures { IsTrue result ↔ Rise degrees.now (0 ∷ labels.now) }
{
    let mut first = 1;
    for i in 0..degrees.len() {
        let past = first + degrees[i];
        if !rise_between(labels, first, past) {
            return false;
        }
        first = past;
    }
    true
}

/// Whether these are labels for the nodes of a tree from 1 on: each has at most `width` bits, and the labels of
/// siblings rise.
pub(crate) fn are_labels(degrees: &[usize], labels: &[u64], width: u8) -> bool
    requires tree { IsTree degrees.now }
    requires count { length labels.now ≡ length degrees.now - 1 }
    requires width { width ≤ 63 }
    ensures { IsTrue result ↔ AreLabels degrees.now (0 ∷ labels.now) width }
{
    if !all_fit(labels, width) {
        return false;
    }
    siblings_rise(degrees, labels)
}
