//! Writes the trips of a generated drive.
ghost use Rattle.verify_bench.specs.Generated.{driven, drop_perhaps, extra_chosen, extra_perhaps, leg, position_chosen};
ghost use Rattle.verify_bench.specs.Generated.{roamed, supply_away, trip, zone_chosen};

use crate::writing::Writing;
use taxi_units::{Event, Key};

impl Writing {
    ghost use Rattle.verify_bench.specs.AddedText.{Adds, HasRoom, place_of};

    /// Writes a trip.
    pub(crate) fn put_trip(&mut self)
        requires { HasRoom self.old 400 7500 15000 }
        ensures { Adds self.old self.new 400 7500 15000 (trip (place_of self.old)) }
    {
        self.roam();
        self.choose_position();
        self.choose_zone();
        self.press(Key::Hire);
        self.drive();
        self.choose_extra();
        self.drop_supply();
        self.press(Key::Stop);
        self.press(Key::Clear);
    }

    /// Writes the way to the trip.
    fn roam(&mut self)
        requires { HasRoom self.old 23 999 2000 }
        ensures { Adds self.old self.new 23 999 2000 (roamed (place_of self.old)) }
    {
        self.read_clock();
        let count = 100 + self.draw(900);
        self.put_intervals(10, count);
    }

    /// Chooses a tariff position.
    fn choose_position(&mut self)
        requires { HasRoom self.old 23 1 3 }
        ensures { Adds self.old self.new 23 1 3 (position_chosen (place_of self.old)) }
    {
        let number = 1 + self.draw(2);
        self.press(Key::Position(number as u8));
    }

    /// Chooses a zone.
    fn choose_zone(&mut self)
        requires { HasRoom self.old 23 1 3 }
        ensures { Adds self.old self.new 23 1 3 (zone_chosen (place_of self.old)) }
    {
        let number = 1 + self.draw(2);
        self.press(Key::Zone(number as u8));
    }

    /// Writes one to five legs.
    fn drive(&mut self)
        requires { HasRoom self.old 115 5245 10495 }
        ensures { Adds self.old self.new 115 5245 10495 (driven (place_of self.old)) }
    {
        let count = 1 + self.draw(5);
        for leg in 0..count {
            self.put_leg();
        }
    }

    /// Writes a leg.
    fn put_leg(&mut self)
        requires { HasRoom self.old 23 1049 2099 }
        ensures { Adds self.old self.new 23 1049 2099 (leg (place_of self.old)) }
    {
        let pulses = self.draw(17);
        let count = 50 + self.draw(1000);
        self.put_intervals(pulses, count);
        self.read_clock();
    }

    /// Chooses a supplement, in one trip of four.
    fn choose_extra(&mut self)
        requires { HasRoom self.old 23 1 3 }
        ensures { Adds self.old self.new 23 1 3 (extra_perhaps (place_of self.old)) }
    {
        if self.draw(4) != 0 {
            return;
        }
        self.put_extra();
    }

    /// Chooses one of three supplements.
    fn put_extra(&mut self)
        requires { HasRoom self.old 23 1 3 }
        ensures { Adds self.old self.new 23 1 3 (extra_chosen (place_of self.old)) }
    {
        let number = 1 + self.draw(3);
        self.press(Key::Extra(number as u8));
    }

    /// Lets the supply drop, in one trip of five.
    fn drop_supply(&mut self)
        requires { HasRoom self.old 26 1190 2 }
        ensures { Adds self.old self.new 26 1190 2 (drop_perhaps (place_of self.old)) }
    {
        if self.draw(5) != 0 {
            return;
        }
        self.miss_supply();
    }

    /// Writes that the supply drops, and that it comes after some time.
    fn miss_supply(&mut self)
        requires { HasRoom self.old 26 1190 2 }
        ensures { Adds self.old self.new 26 1190 2 (supply_away (place_of self.old)) }
    {
        self.put(Event::Down);
        let seconds = self.draw(120);
        self.tenths += 10 * seconds;
        self.put_up();
    }
}
