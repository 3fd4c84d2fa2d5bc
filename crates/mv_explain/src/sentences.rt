//! The sentences, each behind its code: what the code means, and what to do.

/// Each code, a blank, and its sentence.
pub(crate) const ROWS: [&str; 60] = [
    // What is wrong with a value.
    "P1 The product code (GTIN) has not 8, 12, 13 or 14 digits: look for a digit that is missing \
     or stands twice.",
    "P2 The product code (GTIN) has a character that is no digit: take out blanks and hyphens.",
    "P3 The check digit of the product code (GTIN) is wrong, so a digit is wrong or two are \
     swapped: scan the pack again.",
    "P4 The serial, batch or national number is empty: write it; a pack with no national number \
     has null there, or is sent without v.",
    "P5 The serial, batch or national number has more than 20 bytes: look whether two numbers were \
     joined.",
    "P6 The serial, batch or national number has a character that no number has, at the place that \
     the reply gives: look for a blank, or the separator of a scanner.",
    "P7 The date is not six digits YYMMDD, or is no real date: correct it; day 00 is the last day \
     of the month.",
    "P8 The market is not two capital letters: write FI, not fi.",
    "P9 The moment is not before the year 2100: write seconds, not milliseconds.",
    // Why a line, or the message in it, is refused.
    "M1 The line is no JSON: write each object on one line, in UTF-8 without a byte order mark, \
     and look for a comma too many or a quote that is missing.",
    "M2 The line, or the message in it, is JSON, but no object: write an object there.",
    "M3 A field is missing: write the field that the reply names.",
    "M4 The line or its message does not have such a field: take out the field that the reply \
     names; a national number has to come with \"v\":2.",
    "M5 A field is of another kind, as a text for a number, a number out of range, or a word that \
     has no meaning there: the reply names it; correct it by docs/FORMATS.md.",
    "M6 A code, a date, a moment or a market is wrong: correct the field that the reply names, by \
     its fault, which is one of P1 to P9.",
    "M7 A list has no member or too many, as serial numbers are 1 to 100 and markets 1 to 32: send \
     an upload of more packs as several.",
    "M8 A text is empty, or longer than 200 bytes of UTF-8: write it, or shorten it.",
    // Why a line is refused by what is open, or an `open` by its parties and limits.
    "C1 Nothing is open, since the line came before open, or open was refused: send open first.",
    "C2 Something is open already: take the line out, since a run has one open.",
    "C3 A line of a plan neither opens nor submits nor verifies: take it out, since routing and \
     applying go by themselves.",
    "H1 The open names no party: name at least one; it may have no market.",
    "H2 The open names more than 64 parties: let one repository serve several Member States.",
    "H3 The open has a market that two parties serve, or one twice: name each market once.",
    "O1 The window of the open is not 2 to 256: write how many items of a link may wait or be \
     repeated.",
    "O2 The wire of the open is not 1 to 64: write how many frames of a link may be on their way \
     at once.",
    "O3 The uplink of the open is not 1 to 64: write how many messages of a party may wait for the \
     hub.",
    "O4 The submissions of the open are not 1 to 1,000,000: write how many messages a party may \
     submit in the run.",
    // Why a step is refused.
    "S1 A party that the line names does not exist: count parties from 0, in the order of the \
     open.",
    "S2 A query or an answer was submitted by hand: ask with verify, and leave answers to the \
     repositories.",
    "S3 The uplink of the party is full: route its messages first.",
    "S4 The party submitted as many messages as it may in the run: raise submissions in the open, \
     and run again from the first line.",
    "S5 No message of the party waits: submit one, or go on where carrying has come to its end.",
    "S6 The link to the party that the reply names has no room for what the message would put on \
     it: relay that link, then route again.",
    "S7 The wire is full: apply or lose its front frame first.",
    "S8 The wire is empty: relay or repeat a frame, or go on where carrying has come to its end.",
    "S9 No frame of that number was relayed yet: look whether the number is right, or relay it first.",
    "S10 The frame is no longer kept, since as many items as the window holds were put on the link \
     after it: put the repeat earlier in the file, or open with a greater window, and run again \
     from the first line.",
    "S11 Every item of the link was relayed: go on; give what was lost again by repeat.",
    "S12 The link is closed already: go on, since there is nothing to do.",
    "S13 The front frame carries a query, and its answer has no room: route the messages of that \
     party, then apply again; where its submissions are used up, raise them in the open and run \
     again.",
    "S14 Memory was refused, and nothing has changed: take the step again at a pipe; run a file \
     again from its first line, with more memory.",
    // What an applied message did.
    "E1 The effect of the message is done: there is nothing to do.",
    "E2 No upload with a smaller stamp has named the pack so far: wait where the upload is under \
     way, else look at the pack, which may be false.",
    "E3 The pack is not active: look at it, since it may have been supplied twice, or be false.",
    "E4 The pack to be reverted is active: there is nothing to do, since there is no change to \
     take back.",
    "E5 A pack for destruction, a stolen or a repackaged one is never reverted: keep it out of \
     supply.",
    "E6 Another party or user made the change: let the one who made it revert it.",
    "E7 The revert is from before the change: look at the clock of who sent it.",
    "E8 The revert is from more than ten days after the change: keep the pack out of supply.",
    "E9 The pack to be reverted is expired: keep it out of supply.",
    "E10 The batch of the pack to be reverted is recalled: keep the pack out of supply.",
    "E11 The message is noted in the log with no other change, as a receipt, a repack, a query, an \
     answer, or a second recall or withdrawal: there is nothing to do.",
    "E12 The upload is noted, with the packs that are new and those that were named before: look \
     whether many old ones are a second upload by mistake.",
    "E13 The product of the pack to be reverted is withdrawn: keep the pack out of supply.",
    // Why a run ended before its input did.
    "V1 The input could not be read, or 1,000 reads of the run were interrupted: mend the source, \
     and run the whole input again.",
    "V2 The output could not be written: make room, and run the whole input again; where its \
     reader ended first, as head does, nothing is wrong.",
    "V3 Memory was refused, in a plan or outside of a step: give the program more memory, and run \
     the whole input again.",
    "V4 The input has more than 1,000,000 lines: make the run smaller, or, for canon, split the \
     input.",
    "V5 A line has more than 65,536 bytes: look for a line feed that is missing.",
    "V6 The threads of a plan could not be started, or the memory for them was refused: let the \
     process have more threads or memory, or name fewer parties, and run the plan again.",
];
