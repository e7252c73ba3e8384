// Lines to standard error.
ghost use Rattle.std.specs.Prelude.{◌≡◌, [], ◌∷◌, codes, false};
ghost use Rattle.report_run.specs.Messages.{seen, IsTold, AreTold, place_line, IsCounted, IsEnded, line_of, short_line};
ghost use Rattle.report_run.specs.Messages.{beyond_line, several_line, part_line, IsPartTold, undivided_line};
ghost use Rattle.report_run.specs.Messages.{IsBestTold, IsMessage, slow_line};

use crate::failures::Failure;
use itoa::Buffer;
use outside::Sink;
use psz_spec::SizeFault;
use region_report::TextFault;
use storage_words::size_fault_text;

// Why no layout is taken.
const NOT_FOUND: &str = "no layout was found; give it by --param, --cmdline or --dtb";

const UNEXPLAINED: &str = "no layout explains it; give it by --param, --cmdline or --dtb";

const UNFINISHED: &str = "not all layouts were tried; give it by --param, --cmdline or --dtb";

const NOT_THERE: &str = "no layout explains what stands at that place; give it by --param";

const NO_REGION: &str = "no region was found; --memory only looks for ramoops regions";

/// Standard error. A piece of a line that it does not take costs no report, and is remembered.
#[derive(Drop)]
pub struct Messages<E: Sink> {
    pub errors: E,
    pub is_lost: bool,
}

impl<E: Sink> Messages<E> {
    /// Nothing is lost yet.
    pub fn new(errors: E) -> Messages<E>
        ensures errors { result.errors ≡ errors }
        ensures lost { result.is_lost ≡ false }
    {
        Messages {
            errors,
            is_lost: false,
        }
    }

    /// Gives a text out.
    pub fn tell(&mut self, text: &[u8])
        ensures { IsTold text.now (seen (E.given self.old.errors) (E.faults self.old.errors) self.old.is_lost)
            (seen (E.given self.new.errors) (E.faults self.new.errors) self.new.is_lost) }
    {
        if self.errors.put(text).is_err() {
            self.is_lost = true;
        }
    }

    // How many of all images came before.
    fn tell_place(&mut self, done: usize, all: usize)
        ensures { AreTold (place_line done all)
            (seen (E.given self.old.errors) (E.faults self.old.errors) self.old.is_lost)
            (seen (E.given self.new.errors) (E.faults self.new.errors) self.new.is_lost) }
    {
        self.tell(b"\r");
        let mut number = Buffer::new();
        self.tell(number.format(done).as_bytes());
        self.tell(b" of ");
        let mut number = Buffer::new();
        self.tell(number.format(all).as_bytes());
        self.tell(b" ");
    }

    /// How many of all images came before, if that is shown.
    pub fn tell_count(&mut self, is_shown: bool, done: usize, all: usize)
        ensures { IsCounted is_shown done all
            (seen (E.given self.old.errors) (E.faults self.old.errors) self.old.is_lost)
            (seen (E.given self.new.errors) (E.faults self.new.errors) self.new.is_lost) }
    {
        if is_shown {
            self.tell_place(done, all);
        }
    }

    /// That all images were looked at, if that is shown.
    pub fn tell_end(&mut self, is_shown: bool, all: usize)
        ensures { IsEnded is_shown all
            (seen (E.given self.old.errors) (E.faults self.old.errors) self.old.is_lost)
            (seen (E.given self.new.errors) (E.faults self.new.errors) self.new.is_lost) }
    {
        if is_shown {
            self.tell_place(all, all);
            self.tell(b"\n");
        }
    }

    // A line on an image.
    fn tell_line(&mut self, path: &str, why: &str)
        ensures { AreTold (line_of path.now why.now)
            (seen (E.given self.old.errors) (E.faults self.old.errors) self.old.is_lost)
            (seen (E.given self.new.errors) (E.faults self.new.errors) self.new.is_lost) }
    {
        self.tell(b"oopsreport: ");
        self.tell(path.as_bytes());
        self.tell(b": ");
        self.tell(why.as_bytes());
        self.tell(b"\n");
    }

    /// That the search for an image's layout is not at its end after a little work.
    pub fn tell_slow(&mut self, path: &str)
        ensures { AreTold (slow_line path.now)
            (seen (E.given self.old.errors) (E.faults self.old.errors) self.old.is_lost)
            (seen (E.given self.new.errors) (E.faults self.new.errors) self.new.is_lost) }
    {
        self.tell_line(path, "looking for its layout takes longer than usual");
    }

    // The line on an image that is too short.
    fn tell_short(&mut self, path: &str, has: u64, needed: u32)
        ensures { AreTold (short_line path.now has needed)
            (seen (E.given self.old.errors) (E.faults self.old.errors) self.old.is_lost)
            (seen (E.given self.new.errors) (E.faults self.new.errors) self.new.is_lost) }
    {
        self.tell(b"oopsreport: ");
        self.tell(path.as_bytes());
        self.tell(b": it has ");
        let mut number = Buffer::new();
        self.tell(number.format(has).as_bytes());
        self.tell(b" bytes, and the layout needs ");
        let mut number = Buffer::new();
        self.tell(number.format(needed).as_bytes());
        self.tell(b"\n");
    }

    // The line on a packed record that does not inflate to its end.
    fn tell_words(&mut self, path: &str, words: &str)
        ensures { AreTold (part_line path.now words.now)
            (seen (E.given self.old.errors) (E.faults self.old.errors) self.old.is_lost)
            (seen (E.given self.new.errors) (E.faults self.new.errors) self.new.is_lost) }
    {
        self.tell(b"oopsreport: ");
        self.tell(path.as_bytes());
        self.tell(b": inflated in part: ");
        self.tell(words.as_bytes());
        self.tell(b"\n");
    }

    /// Why a packed record does not inflate to its end, if it does not.
    pub fn tell_part(&mut self, path: &str, fault: Option<TextFault>)
        ensures { IsPartTold path.now fault
            (seen (E.given self.old.errors) (E.faults self.old.errors) self.old.is_lost)
            (seen (E.given self.new.errors) (E.faults self.new.errors) self.new.is_lost) }
    {
        if let Some(fault) = fault {
            self.tell_words(path, fault.words());
        }
    }

    // The line on a memory that ends before its region.
    fn tell_beyond(&mut self, path: &str, has: u64, size: u32, place: u64)
        ensures { AreTold (beyond_line path.now has size place)
            (seen (E.given self.old.errors) (E.faults self.old.errors) self.old.is_lost)
            (seen (E.given self.new.errors) (E.faults self.new.errors) self.new.is_lost) }
    {
        self.tell(b"oopsreport: ");
        self.tell(path.as_bytes());
        self.tell(b": it has ");
        let mut number = Buffer::new();
        self.tell(number.format(has).as_bytes());
        self.tell(b" bytes, and the region has ");
        let mut number = Buffer::new();
        self.tell(number.format(size).as_bytes());
        self.tell(b" from ");
        let mut number = Buffer::new();
        self.tell(number.format(place).as_bytes());
        self.tell(b" on");
        self.tell(b"\n");
    }

    // The line on several regions, with their places.
    fn tell_several(&mut self, path: &str, places: &str)
        ensures { AreTold (several_line path.now places.now)
            (seen (E.given self.old.errors) (E.faults self.old.errors) self.old.is_lost)
            (seen (E.given self.new.errors) (E.faults self.new.errors) self.new.is_lost) }
    {
        self.tell(b"oopsreport: ");
        self.tell(path.as_bytes());
        self.tell(b": several regions; choose one by --at:");
        self.tell(places.as_bytes());
        self.tell(b"\n");
    }

    // The line on a storage that no kernel divides by the sizes that words give.
    fn tell_undivided(&mut self, path: &str, fault: SizeFault)
        ensures { AreTold (undivided_line path.now fault)
            (seen (E.given self.old.errors) (E.faults self.old.errors) self.old.is_lost)
            (seen (E.given self.new.errors) (E.faults self.new.errors) self.new.is_lost) }
    {
        self.tell(b"oopsreport: ");
        self.tell(path.as_bytes());
        self.tell(b": the kernel takes no such sizes: ");
        self.tell(size_fault_text(fault).as_bytes());
        self.tell(b"\n");
    }

    // The line on the best layout, and why it is not taken.
    fn tell_best(&mut self, path: &str, best: &str, why: &str)
        ensures { IsBestTold best.now (line_of path.now why.now)
            (seen (E.given self.old.errors) (E.faults self.old.errors) self.old.is_lost)
            (seen (E.given self.new.errors) (E.faults self.new.errors) self.new.is_lost) }
    {
        self.tell(b"oopsreport: ");
        self.tell(best.as_bytes());
        self.tell_line(path, why);
    }

    /// Why an image was not reported, or its records not saved.
    pub fn tell_failure(&mut self, path: &str, failure: &Failure)
        ensures { IsMessage path.now failure.now
            (seen (E.given self.old.errors) (E.faults self.old.errors) self.old.is_lost)
            (seen (E.given self.new.errors) (E.faults self.new.errors) self.new.is_lost) }
    {
        match failure {
            Failure::Memory => self.tell_line(path, "memory allocation failed"),
            Failure::Unopened(why) => self.tell_line(path, why),
            Failure::Unread => self.tell_line(path, "it could not be read"),
            Failure::Unwritten => self.tell_line(path, "standard output could not be written"),
            Failure::Short { has, needed } => self.tell_short(path, *has, *needed),
            Failure::NotFound => self.tell_line(path, NOT_FOUND),
            Failure::Unexplained(best) => self.tell_best(path, best, UNEXPLAINED),
            Failure::Unfinished(best) => self.tell_best(path, best, UNFINISHED),
            Failure::NoText => self.tell_line(path, "nothing of this packed record inflates"),
            Failure::Unsaved(why) => self.tell_line(path, why),
            Failure::NotThere => self.tell_line(path, NOT_THERE),
            Failure::NoRegion => self.tell_line(path, NO_REGION),
            Failure::Several(places) => self.tell_several(path, places),
            Failure::NoPlace => self.tell_line(path, "no place is named"),
            Failure::Beyond { has, size, place } => self.tell_beyond(path, *has, *size, *place),
            Failure::Undivided(fault) => self.tell_undivided(path, *fault),
        }
    }
}
