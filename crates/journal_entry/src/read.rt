//! Reads an entry, or a numbered one, from its text.
ghost use Rattle.std.specs.Prelude.{◌≡◌, IfSome, Some};
ghost use Rattle.journal_entry.specs.Entries.{IsEntry, IsSample, IsWhat};
ghost use Rattle.journal_entry.specs.Numbers.{IsNumberedTextOf, is_rate};
ghost use Rattle.journal_entry.specs.Texts.{IsTextOf, sample_fields, what_fields};
ghost use Rattle.journal_entry.specs.Reading.{HasFields, entry_fields};
ghost use Rattle.journal_entry.specs.declared.entry.Entry as entry;
ghost use Rattle.journal_entry.specs.declared.entry.What as what;
ghost use Rattle.journal_entry.specs.declared.numbered.Numbered as numbered;
ghost use Rattle.tick_units.specs.declared.sample.Sample as sample;

use crate::fields::Fields;
use crate::{Entry, LINE_ROOM, Numbered, What, keywords, write_numbered, write_unnumbered};
use tick_units::{Kind, MOST_RATE, Sample, Short};

/// The entry whose text this is. `None` where no entry has this text.
pub fn read_entry(text: &[u8]) -> Option<Entry>
    ensures entry { IfSome result (λ e. IsTextOf text.now e) }
    ensures every { (e : entry.Entry) → IsTextOf text.now e → result ≡ Some e }
{
    let entry = candidate(text)?;
    let mut again = [0; LINE_ROOM];
    let length = write_unnumbered(&entry, &mut again);
    if &again[..length] == text {
        Some(entry)
    } else {
        None
    }
}

/// The numbered entry whose text this is. `None` where no numbered entry has this text, as where the number is 0 or the rate is
/// greater than a page's.
pub fn read_numbered(text: &[u8]) -> Option<Numbered>
    ensures numbered { IfSome result (λ n. IsNumberedTextOf text.now n) }
    ensures every { (n : numbered.Numbered) → IsNumberedTextOf text.now n → result ≡ Some n }
{
    let numbered = numbered_candidate(text)?;
    if numbered.length == 0 || !is_rate(numbered.rate) {
        return None;
    }
    let mut spelt = [0; LINE_ROOM];
    let count = write_numbered(&numbered, &mut spelt);
    if &spelt[..count] == text {
        Some(numbered)
    } else {
        None
    }
}

// Whether a rate can be a page's.
fn is_rate(rate: i32) -> bool
    ensures { result ≡ is_rate rate }
{
    -MOST_RATE <= rate && rate <= MOST_RATE
}

// The one entry whose text this can be.
fn candidate(text: &[u8]) -> Option<Entry>
    ensures { (e : entry.Entry) → IsTextOf text.now e → result ≡ Some e }
{
    read_fields(&mut Fields::new(text))
}

// The one numbered entry whose text this can be.
fn numbered_candidate(text: &[u8]) -> Option<Numbered>
    ensures { (n : numbered.Numbered) → IsNumberedTextOf text.now n → result ≡ Some n }
{
    let mut fields = Fields::new(text);
    let _version = fields.next();
    let length = fields.next_u64();
    let rate = fields.next_rate();
    let entry = read_fields(&mut fields)?;
    Some(Numbered {
        length,
        rate,
        entry,
    })
}

// The entry of these fields.
fn read_fields(fields: &mut Fields<'_>) -> Option<Entry>
    ensures { (e : entry.Entry) → IsEntry e → HasFields fields.old (entry_fields e) → result ≡ Some e }
{
    let feed = fields.next_u32();
    let at = fields.next_moment()?;
    let what = read_what(fields)?;
    Some(Entry { feed, at, what })
}

// What the feed reported, by its word and the fields after it.
fn read_what(fields: &mut Fields<'_>) -> Option<What>
    ensures { (w : what.What) → IsWhat w → HasFields fields.old (what_fields w) → result ≡ Some w }
{
    let word = fields.next();
    if word == keywords::VERDICT {
        Some(What::Heard(Kind::Verdict {
            second: fields.next_u64(),
            leap_at: fields.next_u64(),
        }))
    } else if word == keywords::LONE {
        Some(What::Heard(Kind::Lone {
            second: fields.next_u64(),
        }))
    } else if word == keywords::DIFFERS {
        Some(What::Heard(Kind::Differs {
            before: fields.next_u64(),
            now: fields.next_u64(),
            apart: fields.next_u64(),
        }))
    } else if word == keywords::REFUSED {
        Some(What::Heard(Kind::Refused {
            rule: fields.next_u8(),
        }))
    } else if word == keywords::SAMPLE {
        Some(What::Sample(read_sample(fields)))
    } else if word == keywords::DECLINED {
        Some(What::Declined(fields.next_u8()))
    } else if word == keywords::NOTICE {
        Some(What::Notice(fields.next_u64()))
    } else {
        None
    }
}

// The sample of these fields.
fn read_sample(fields: &mut Fields<'_>) -> Sample
    ensures { (s : sample.Sample) → IsSample s → HasFields fields.old (sample_fields s) → result ≡ s }
{
    Sample {
        offset: fields.next_span(),
        delay: fields.next_span(),
        dispersion: fields.next_span(),
        stratum: fields.next_u8(),
        address: fields.next_address(),
        root_delay: Short(fields.next_u32()),
        root_disp: Short(fields.next_u32()),
    }
}
