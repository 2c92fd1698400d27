//! What a session shows of its configuration: a view of it, and its trees.

ghost use Rattle.std.specs.Prelude.{◌≡◌, ◌<◌, ◌+◌, length, take, slice_index_or, Some, IfErr};
ghost use Rattle.std.specs.Prelude.{is_ok, is_err};
ghost use Rattle.ylink.specs.Link.{device_of, has_failed};
ghost use Rattle.ylink.specs.Sends.{Grows};
ghost use Rattle.ysession.specs.Session.{history_of, machine_of, setting_of, tables_of};
ghost use Rattle.ymachine.specs.Machine.{symbols};
ghost use Rattle.ymachine.specs.Tables.{state_after};
ghost use Rattle.ymachine.specs.Tree.{error_leaf};
ghost use Rattle.ymachine.specs.Unwinding.{tree_lines};
ghost use Rattle.ymachine.specs.View.{configuration_by, tree_by, trees_in};
ghost use Rattle.ymachine.specs.declared.machine.UnwindFault.TheVariants as faults;

use crate::session::Session;
use std::io::Write;
use ymachine::machine::UnwindFault;
use ymachine::{TreeView, View};
use ytables::{Link, Tables};

impl Session {
    /// The tables of the session. It takes no memory.
    #[tactic(auto, unfolding(crate::specs::Session::setting_of))]
    pub fn tables(&self) -> &Tables
        ensures { result.now ≡ tables_of self.now }
    {
        self.journal.machine().tables()
    }

    /// The state on top of the stack: the one to which the gotos of the tables lead over the
    /// stack's symbols. It takes no memory.
    #[tactic(auto, unfolding(crate::specs::Session::setting_of, crate::specs::Session::history_of))]
    pub fn state(&self) -> usize
        ensures { state_after (tables_of self.now) (symbols (history_of self.now).now.stack)
            ≡ Some result }
    {
        self.journal.machine().state()
    }

    /// The state after the symbols of the stack up to the entry at this index, counted from 0 at
    /// the bottom, and after its own: the one to which the gotos of the tables lead over them. It
    /// takes no memory.
    #[tactic(auto, unfolding(crate::specs::Session::setting_of, crate::specs::Session::history_of))]
    pub fn state_at(&self, index: usize) -> usize
        requires { index < length (history_of self.now).now.stack }
        ensures { state_after (tables_of self.now)
            (take (index + 1) (symbols (history_of self.now).now.stack)) ≡ Some result }
    {
        self.journal.machine().state_at(index)
    }

    /// The configuration now. It takes no memory.
    #[tactic(auto, unfolding(crate::specs::Session::history_of))]
    pub fn view(&self) -> View<'_>
        ensures { configuration_by result ≡ (history_of self.now).now }
    {
        self.journal.machine().view()
    }

    /// The tree of the entry of the stack at this index, counted from 0 at the bottom. It takes no
    /// memory.
    #[tactic(auto, unfolding(crate::specs::Session::history_of))]
    pub fn tree_at(&self, index: usize) -> TreeView<'_>
        requires { index < length (history_of self.now).now.stack }
        ensures { tree_by result
            ≡ slice_index_or (trees_in (history_of self.now).now.stack) index error_leaf }
    {
        self.journal.machine().tree_at(index)
    }

    /// Writes a line for each entry of the stack, from the bottom: its tree. A leaf is its token's
    /// name, `@` and its place; a rule is its number and its children, each after a space, in
    /// parentheses; an error is `error`. U3 exactly where the link failed; the text is cut off
    /// then. The configuration stays. It takes no memory.
    #[tactic(auto, unfolding(crate::specs::Session::setting_of, crate::specs::Session::history_of))]
    pub fn write_trees<W: Write>(&mut self, link: &mut Link<W>) -> Result<(), UnwindFault>
        ensures text { Grows (W.contents (device_of link.old)) (W.contents (device_of link.new))
            (is_ok result) (tree_lines (machine_of self.old) (history_of self.old).now.stack) }
        ensures failed { has_failed link.new ≡ is_err result }
        ensures fault { IfErr result (λ e. e ≡ faults.Write) }
        ensures history { history_of self.new ≡ history_of self.old }
        ensures setting { setting_of self.new ≡ setting_of self.old }
    {
        self.journal.write_trees(link).ok_or(UnwindFault::Write)
    }
}
