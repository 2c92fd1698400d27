//! What values need that are thrown away, and how values are shown.

use crate::errors::SWITCH;
use crate::references::{Piece, piece_at};
use crate::skeleton::Skeleton;
use yexplain::reads::{left_of, name_of};
use yfiles::output::Output;
use ylalr::{END, ERROR};
use yparts::parts::{Action, Care, Deed, Taker, Whose};
use ysymbols::Sym;

impl<'a> Skeleton<'a> {
    /// Whether an action names the value of a symbol.
    fn names_value(&self, action: Action<'a>, symbol: Sym) -> bool {
        let scene = self.action_scene(action);
        let mut rest = action.piece.text;
        for _ in action.piece.text {
            let Some((piece, _, after)) = piece_at(rest, self.style.dialect()) else {
                break;
            };
            if let Piece::Value(value) = piece {
                if scene.symbol_of(value.whose) == Some(symbol) {
                    return true;
                }
            }
            rest = after;
        }
        false
    }

    /// Whether code for all values is meant for a symbol: one that the file names, or the value of
    /// an inner action, where bison has one.
    fn has_value(&self, symbol: Sym) -> bool {
        let is_bison = self.style.is_bison();
        if symbol == END || symbol == ERROR {
            return symbol == END && is_bison && !self.parts.ends.is_empty();
        }
        !is_bison
            || !name_of(self.grammar, symbol).starts_with(b"$")
            || self.has_inner_value(symbol)
    }

    /// Whether the symbol of an inner action has a value for bison: set by it, or read in its body.
    pub fn has_inner_value(&self, symbol: Sym) -> bool {
        let mut own = None;
        for action in &self.parts.actions {
            if left_of(self.grammar, action.rule) == Some(symbol) {
                own = Some(action.body);
            }
        }
        for action in &self.parts.actions {
            if Some(action.body) == own && self.names_value(*action, symbol) {
                return true;
            }
        }
        false
    }

    /// The code for the value of a symbol: that which is most closely meant for it.
    fn care_of(&self, deed: Deed, symbol: Sym) -> Option<Care<'a>> {
        let looks = self.parts.looks_of(symbol);
        let mut best = None;
        let mut most = 0;
        for care in &self.parts.cares {
            let close = match care.whose {
                Whose::Symbol(meant) if meant == symbol => 3,
                Whose::Tag(tag) if looks.tag == Some(tag) => 2,
                Whose::Tagged if looks.tag.is_some() => 1,
                Whose::Untagged if looks.tag.is_none() => 1,
                _ => 0,
            };
            let is_for = close >= 2 || self.has_value(symbol);
            if care.deed == deed && close > most && is_for {
                best = Some(*care);
                most = close;
            }
        }
        best
    }

    /// Writes code by the kinds of symbols, with a case for each whose values need something. In
    /// C++ the parser has the parameters, and each value a symbol.
    pub fn put_cares(&self, out: &mut Output, deed: Deed) {
        let is_cxx = self.style.options.is_cxx();
        for param in &self.parts.params {
            if param.taker != Taker::Lex && !is_cxx {
                out.put_pieces(&[b"  (void) ", param.name, b";\n"]);
            }
        }
        let names = match is_cxx {
            true => ("yysym.value", "yysym.location"),
            false => ("(*yyvaluep)", "(*yylocationp)"),
        };
        out.put(SWITCH);
        for symbol in 0..self.grammar.symbols() {
            if let Some(care) = self.care_of(deed, symbol) {
                let scene = self.value_scene(Some(symbol), names);
                self.put_case(out, self.kind_of(symbol), care.piece, &scene);
            }
        }
    }
}
