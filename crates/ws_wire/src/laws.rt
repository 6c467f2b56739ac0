//! Laws over the definitions, each the contract of a function that does nothing: proofs of the layers above call them.

ghost use Rattle.std.specs.Prelude.{◌≡◌, ◌<◌, ◌↔◌, ℕ, List, ◌++◌, length, ◌^◌};
ghost use Rattle.ws_wire.specs.Header.{AreBytes, HeaderFields, IsHeaderOf, IsShortestForm, shortest_form};
ghost use Rattle.ws_wire.specs.Masking.{IsMasked, masked};
ghost use Rattle.ws_wire.specs.Reading.{BeginsNoHeader};
ghost use Rattle.ws_wire.specs.Frame.{WireFrame, IsWireFrame, wire_bytes, KeyedFrame, FitsTheLayout, frame_bytes};
ghost use Rattle.ws_wire.specs.Stream.{SplitsInto, SplitsIntoAnyForm};
ghost use Rattle.ws_wire.specs.declared.header.Form.{Form};

/// No header begins another: where two stand at the front of the same bytes they are one.
pub fn no_header_begins_another()
    ensures { (g h : HeaderFields) (a b x y : List ℕ) → IsHeaderOf g a → IsHeaderOf h b
        → a ++ x ≡ b ++ y → (g ≡ h) × (a ≡ b) × (x ≡ y) }
{}

/// A header has at most fourteen bytes: where none stands at the front there are fewer.
pub fn fourteen_bytes_hold_a_header()
    ensures { (bytes : List ℕ) → AreBytes bytes → BeginsNoHeader bytes → length bytes < 14 }
{}

/// Masking by the rule on each byte and the masked list are one.
pub fn masked_by_rule()
    ensures { (key : List ℕ) (phase : ℕ) (old new : List ℕ) →
        IsMasked key phase old new ↔ (new ≡ masked key phase old) }
{}

/// No frame begins another, in whatever form their headers are.
pub fn no_wire_frame_begins_another()
    ensures { (f g : WireFrame) (x y : List ℕ) → IsWireFrame f → IsWireFrame g
        → wire_bytes f ++ x ≡ wire_bytes g ++ y → (f ≡ g) × (x ≡ y) }
{}

/// No frame as it is sent begins another.
pub fn no_frame_begins_another()
    ensures { (f g : KeyedFrame) (x y : List ℕ) → FitsTheLayout f → FitsTheLayout g
        → frame_bytes f ++ x ≡ frame_bytes g ++ y → (f ≡ g) × (x ≡ y) }
{}

/// The shortest form holds the length, none that does is shorter, and no other form has both.
pub fn shortest_form_is_least()
    ensures least { (len : ℕ) → len < 2 ^ 64 → IsShortestForm (shortest_form len) len }
    ensures only { (form : Form) (len : ℕ) → IsShortestForm form len → form ≡ shortest_form len }
{}

/// A stream splits into frames and a rest in one way.
pub fn one_split()
    ensures sent { (bytes : List ℕ) (xs ys : List KeyedFrame) (a b : List ℕ)
        → SplitsInto bytes xs a → SplitsInto bytes ys b → (xs ≡ ys) × (a ≡ b) }
    ensures any_form { (bytes : List ℕ) (xs ys : List WireFrame) (a b : List ℕ)
        → SplitsIntoAnyForm bytes xs a → SplitsIntoAnyForm bytes ys b → (xs ≡ ys) × (a ≡ b) }
{}

/// Every list of bytes splits.
pub fn every_stream_splits()
    ensures sent { (bytes : List ℕ) → AreBytes bytes
        → (xs : List KeyedFrame) × (rest : List ℕ) × SplitsInto bytes xs rest }
    ensures any_form { (bytes : List ℕ) → AreBytes bytes
        → (xs : List WireFrame) × (rest : List ℕ) × SplitsIntoAnyForm bytes xs rest }
{}

/// More bytes leave the frames before them: those of what was left, with the new bytes, follow them.
pub fn splits_go_on()
    ensures sent { (bytes more : List ℕ) (xs ys : List KeyedFrame) (a b : List ℕ)
        → SplitsInto bytes xs a → SplitsInto (a ++ more) ys b → SplitsInto (bytes ++ more) (xs ++ ys) b }
    ensures any_form { (bytes more : List ℕ) (xs ys : List WireFrame) (a b : List ℕ)
        → SplitsIntoAnyForm bytes xs a → SplitsIntoAnyForm (a ++ more) ys b
        → SplitsIntoAnyForm (bytes ++ more) (xs ++ ys) b }
{}
