// Laws: records that are written read back.
ghost use Rattle.fr_text.specs.ReadBack.{RecordsAreReadBack, RowsAreRecords};

/// A law: the text of records, their fields with commas between them and a line feed after each record, holds exactly
/// these records. No field has a comma, a quote or a line end in it, no record is of one empty field alone, and the
/// text does not begin with the first byte of a byte order mark.
pub fn records_are_read_back()
    ensures { RecordsAreReadBack }
{}

/// A law: a line that is made of a word and fields behind it is the line of a record.
pub fn rows_are_records()
    ensures { RowsAreRecords }
{}
