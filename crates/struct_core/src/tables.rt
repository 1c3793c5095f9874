ghost use Rattle.std.specs.Prelude.{◌≡◌, map};
ghost use Rattle.struct_core.specs.Words.{task_words as the_task_words, option_words as the_option_words};

use pnml_grammar::Names;

/// The words of the tasks, in the order of [`Task`](crate::Task).
pub const TASKS: Names<16> = Names {
    names: [
        b"check",
        b"canon",
        b"class",
        b"places",
        b"transitions",
        b"siphons",
        b"traps",
        b"bounds",
        b"commoner",
        b"cert-bounds",
        b"cert-commoner",
        b"verify",
        b"live",
        b"sub",
        b"resume",
        b"replay",
    ],
};

/// The words of the options, in the order of [`Setting`](crate::Setting).
pub const OPTIONS: Names<3> = Names {
    names: [b"--net", b"--rows", b"--sets"],
};

/// The words of the tasks in table order.
#[tactic(auto, unfolding(crate::specs::Words::task_words))]
pub fn task_words() -> [&'static [u8]; 16]
    ensures { map (λ word. word.now) result ≡ the_task_words }
{
    let Names { names } = TASKS;
    names
}

/// The words of the options in table order.
#[tactic(auto, unfolding(crate::specs::Words::option_words))]
pub fn option_words() -> [&'static [u8]; 3]
    ensures { map (λ word. word.now) result ≡ the_option_words }
{
    let Names { names } = OPTIONS;
    names
}
