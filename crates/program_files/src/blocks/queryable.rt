//! What answers questions.

use crate::blocks::question::Question;
use crate::blocks::reply::Reply;

/// A structure in a block that answers questions.
pub(crate) trait Queryable: Drop {
    ghost use Rattle.program_files.specs.declared.blocks.question.Question.{Question};
    ghost use Rattle.program_files.specs.declared.blocks.reply.Reply.{Reply};

    /// The block holds such a structure.
    ghost holds: { Self → Type 0 };

    /// The structure may reply that to a question.
    ghost replies: { Self → Question → Reply → Type 0 };

    /// What is replied to a question.
    fn reply(&self, question: &Question) -> Reply
        requires { holds self.now }
        ensures { replies self.now question.now result };
}
