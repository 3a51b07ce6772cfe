// The marks of one record.
ghost use Rattle.std.specs.Prelude.{◌≡◌};
ghost use Rattle.table.specs.Marks.{unmarked, unchosen, chosen_for};

use crate::Record;

impl Record {
    pub(crate) fn unmarked(self) -> Record
        ensures { result ≡ unmarked self }
    {
        Record {
            excluded: false,
            ..self.unchosen()
        }
    }

    pub(crate) fn unchosen(self) -> Record
        ensures { result ≡ unchosen self }
    {
        Record {
            chosen: false,
            write: false,
            ..self
        }
    }

    pub(crate) fn chosen_for(self, write: bool) -> Record
        ensures { result ≡ chosen_for write self }
    {
        Record {
            chosen: true,
            write,
            ..self
        }
    }
}
