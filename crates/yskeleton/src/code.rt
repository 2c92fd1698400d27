//! Code of the file in the texts of a parser: each piece with where it is from.

use crate::actions::put_action;
use crate::scene::Scene;
use crate::skeleton::Skeleton;
use crate::strings::{Escaped, put_string};
use yfiles::output::Output;
use yparts::parts::{Piece, Target};

impl<'a> Skeleton<'a> {
    /// Says that the next line is this one of a file, where such things are said.
    fn put_line(&self, out: &mut Output, line: usize, path: &str) {
        if self.style.wishes.lines {
            out.put("#line ");
            out.number(line);
            out.put(" \"");
            put_string(out, path.as_bytes(), Escaped::Quotes);
            out.put("\"\n");
        }
    }

    /// Ends what is from the grammar file; its last line may lack its newline.
    fn put_back(&self, out: &mut Output) {
        out.end_line();
        let line = out.next_line().saturating_add(1);
        self.put_line(out, line, self.own_path);
    }

    /// Writes a text of the file.
    pub fn put_piece(&self, out: &mut Output, piece: Piece<'_>) {
        self.put_line(out, piece.line, self.path);
        out.put_bytes(piece.text);
        self.put_back(out);
    }

    /// Writes code of the file that names values and places.
    pub fn put_code(&self, out: &mut Output, piece: Piece<'a>, scene: &Scene<'a>) {
        self.put_line(out, piece.line, self.path);
        put_action(out, piece, scene, self.style.dialect());
        self.put_back(out);
    }

    /// Writes such code as a case.
    pub fn put_case(&self, out: &mut Output, number: usize, piece: Piece<'a>, scene: &Scene<'a>) {
        out.put("    case ");
        out.number(number);
        out.put(":\n");
        self.put_code(out, piece, scene);
        out.put("      break;\n");
    }

    /// Writes all code for one place.
    pub fn put_all(&self, out: &mut Output, target: Target) {
        for block in &self.parts.blocks {
            if block.target == target {
                self.put_piece(out, block.piece);
            }
        }
    }

    /// Writes the text after the second mark.
    pub fn put_tail(&self, out: &mut Output) {
        if let Some(tail) = self.parts.tail {
            if !tail.text.trim_ascii().is_empty() {
                self.put_piece(out, tail);
            }
        }
    }

    /// Writes the actions.
    pub fn put_actions(&self, out: &mut Output) {
        for action in &self.parts.actions {
            let scene = self.action_scene(*action);
            self.put_case(out, action.rule, action.piece, &scene);
        }
    }
}
