//! Displays, by their texts.
ghost use Rattle.std.specs.Prelude.{[], ◌↔◌, ◌≡◌, Some};
ghost use Rattle.meter_model.specs.{Display.{display_of}, KeptTrip.{IsTripKept}, LastShown.{IsOfMeter}};
ghost use Rattle.receipt_text.specs.Shows.{HasFields};
ghost use Rattle.meter_run.specs.Common.{Display, IsShown, Meter, Setting, display_text, shown};

/// A law: a meter that keeps its trip as the store does shows nothing exactly if its display has the text of the one
/// that it showed last. That one is its own (`the_last_display_is_one_of_the_meter` of `meter_model`). The meter
/// compares fields, and two of its displays have one text exactly if they have equal fields: what no text shows, the
/// fare and the supplements for hire, is 0 there.
pub fn displays_are_shown_where_their_texts_differ()
    ensures { (s : Setting) (m : Meter) (last : Display) → IsTripKept s m → m.shown ≡ Some last
        → IsOfMeter s m.shown → IsShown last → IsShown (display_of s m) → HasFields last → HasFields (display_of s m)
        → ((shown s m).acts ≡ []) ↔ (display_text last ≡ display_text (display_of s m)) }
{}
