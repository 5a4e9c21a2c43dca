// The MT509 as bytes: the rows of its table, and the fixed text and form of each slot. The proofs hold both against specs/Table and
// specs/Tree.
#![tactic(auto)]

ghost use Rattle.std.specs.Prelude.{◌≡◌};
ghost use Rattle.forms.specs.Slots.{slot_at};
ghost use Rattle.layout.specs.Rows.{rows_of};
ghost use Rattle.sheets.specs.Trees.{table_of};
ghost use Rattle.answer_table.specs.Table.{header, slot_of};
ghost use Rattle.answer_table.specs.Tree.{tree};

// Sixteen bytes a row: its kind, its slot, the length of its text, the text.
const TABLE: [u8; 1072] = *b"\x03\x00\x09:16R:GENL    \
    \x01\x01\x0a:20C::SEME   \
    \x01\x02\x05:23G:        \
    \x02\x03\x0a:98C::PREP   \
    \x06\x00\x09:16R:LINK    \
    \x08\x04\x0a:20C::MAST   \
    \x09\x00\x09:16S:LINK    \
    \x08\x05\x0a:20C::PREV   \
    \x09\x00\x09:16S:LINK    \
    \x08\x06\x0a:20C::RELA   \
    \x09\x00\x09:16S:LINK    \
    \x08\x07\x0a:20C::LIST   \
    \x09\x00\x09:16S:LINK    \
    \x08\x08\x0a:20C::BASK   \
    \x09\x00\x09:16S:LINK    \
    \x08\x09\x0a:20C::PROG   \
    \x09\x00\x09:16S:LINK    \
    \x08\x0a\x0a:20C::COMM   \
    \x09\x00\x09:16S:LINK    \
    \x00\x00\x00             \
    \x03\x00\x09:16R:STAT    \
    \x0b\x00\x0cIPRCCPRCMTCH \
    \x01\x0b\x06:25D::       \
    \x04\x00\x09:16R:REAS    \
    \x01\x0c\x0a:24B::REJT   \
    \x02\x0d\x0a:70D::REAS   \
    \x05\x00\x09:16S:REAS    \
    \x04\x00\x09:16R:REAS    \
    \x01\x0e\x0a:24B::REJT   \
    \x02\x0f\x0a:70D::REAS   \
    \x05\x00\x09:16S:REAS    \
    \x04\x00\x09:16R:REAS    \
    \x01\x10\x0a:24B::REJT   \
    \x02\x11\x0a:70D::REAS   \
    \x05\x00\x09:16S:REAS    \
    \x04\x00\x09:16R:REAS    \
    \x01\x12\x0a:24B::REJT   \
    \x02\x13\x0a:70D::REAS   \
    \x05\x00\x09:16S:REAS    \
    \x04\x00\x09:16R:REAS    \
    \x01\x14\x0a:24B::REJT   \
    \x02\x15\x0a:70D::REAS   \
    \x05\x00\x09:16S:REAS    \
    \x04\x00\x09:16R:REAS    \
    \x01\x16\x0a:24B::REJT   \
    \x02\x17\x0a:70D::REAS   \
    \x05\x00\x09:16S:REAS    \
    \x04\x00\x09:16R:REAS    \
    \x01\x18\x0a:24B::REJT   \
    \x02\x19\x0a:70D::REAS   \
    \x05\x00\x09:16S:REAS    \
    \x04\x00\x09:16R:REAS    \
    \x01\x1a\x0a:24B::REJT   \
    \x02\x1b\x0a:70D::REAS   \
    \x05\x00\x09:16S:REAS    \
    \x04\x00\x09:16R:REAS    \
    \x01\x1c\x0a:24B::REJT   \
    \x02\x1d\x0a:70D::REAS   \
    \x05\x00\x09:16S:REAS    \
    \x04\x00\x09:16R:REAS    \
    \x01\x1e\x0a:24B::REJT   \
    \x02\x1f\x0a:70D::REAS   \
    \x05\x00\x09:16S:REAS    \
    \x0a\x16\x09:16R:REAS    \
    \x05\x00\x09:16S:STAT    \
    \x05\x00\x09:16S:GENL    \
    \x05\x00\x01-            ";

// Twenty bytes a line: its form, least and most width, the length of its text, the text. The slots stand first, by number; from
// the line 36 on the words that two of them take.
const SLOTS: [u8; 1380] = *b"\x00\x00\x00\x00                \
    \x01\x01\x10\x02//              \
    \x02\x24\x03\x00                \
    \x05\x00\x00\x02//              \
    \x01\x01\x10\x02//              \
    \x08\x01\x10\x02//              \
    \x01\x01\x10\x02//              \
    \x08\x01\x10\x02//              \
    \x08\x01\x10\x02//              \
    \x08\x01\x10\x02//              \
    \x08\x01\x10\x02//              \
    \x02\x27\x1e\x00                \
    \x01\x04\x04\x06/GSCC/          \
    \x09\x01\x23\x02//              \
    \x01\x04\x04\x06/GSCC/          \
    \x09\x01\x23\x02//              \
    \x01\x04\x04\x06/GSCC/          \
    \x09\x01\x23\x02//              \
    \x01\x04\x04\x06/GSCC/          \
    \x09\x01\x23\x02//              \
    \x01\x04\x04\x06/GSCC/          \
    \x09\x01\x23\x02//              \
    \x01\x04\x04\x06/GSCC/          \
    \x09\x01\x23\x02//              \
    \x01\x04\x04\x06/GSCC/          \
    \x09\x01\x23\x02//              \
    \x01\x04\x04\x06/GSCC/          \
    \x09\x01\x23\x02//              \
    \x01\x04\x04\x06/GSCC/          \
    \x09\x01\x23\x02//              \
    \x01\x04\x04\x06/GSCC/          \
    \x09\x01\x23\x02//              \
    \x01\x00\x0c\x00                \
    \x01\x01\x08\x00                \
    \x00\x00\x00\x08MBSCTRRS        \
    \x00\x00\x00\x0c509/000/GSCC    \
    \x00\x00\x00\x09CAST/COPY       \
    \x00\x00\x00\x04CAST            \
    \x00\x00\x00\x04INST            \
    \x00\x00\x00\x0aIPRC//PACK      \
    \x00\x00\x00\x0aIPRC//REJT      \
    \x00\x00\x00\x0eIPRC/GSCC/MODA  \
    \x00\x00\x00\x0eIPRC/GSCC/MODP  \
    \x00\x00\x00\x0eIPRC/GSCC/PAMS  \
    \x00\x00\x00\x0eIPRC/GSCC/YPPR  \
    \x00\x00\x00\x0eIPRC/GSCC/PADK  \
    \x00\x00\x00\x0eIPRC/GSCC/DPPR  \
    \x00\x00\x00\x0eIPRC/GSCC/DELE  \
    \x00\x00\x00\x0eIPRC/GSCC/DEPS  \
    \x00\x00\x00\x0eIPRC/GSCC/DESA  \
    \x00\x00\x00\x0eIPRC/GSCC/TUNB  \
    \x00\x00\x00\x0eIPRC/GSCC/TBAL  \
    \x00\x00\x00\x0eIPRC/GSCC/DNAL  \
    \x00\x00\x00\x0aCPRC//PACK      \
    \x00\x00\x00\x0aCPRC//REJT      \
    \x00\x00\x00\x0aCPRC//CAND      \
    \x00\x00\x00\x0eCPRC/GSCC/PACS  \
    \x00\x00\x00\x0eCPRC/GSCC/XPPR  \
    \x00\x00\x00\x0eCPRC/GSCC/UPBP  \
    \x00\x00\x00\x0eCPRC/GSCC/UPBR  \
    \x00\x00\x00\x0eCPRC/GSCC/UPBC  \
    \x00\x00\x00\x0eCPRC/GSCC/VPBP  \
    \x00\x00\x00\x0eCPRC/GSCC/VPBR  \
    \x00\x00\x00\x0eCPRC/GSCC/VPBC  \
    \x00\x00\x00\x0eCPRC/GSCC/CDNA  \
    \x00\x00\x00\x0aMTCH//MACH      \
    \x00\x00\x00\x0eMTCH/GSCC/MAPL  \
    \x00\x00\x00\x0eMTCH/GSCC/MAPS  \
    \x00\x00\x00\x0eMTCH/GSCC/MAFM  ";

// The slots of the header's lines.
const HEADER: [u8; 4] = [32, 34, 35, 33];

pub fn heads() -> &'static [u8]
    ensures { result.now ≡ header }
{
    &HEADER
}

pub fn rows() -> &'static [u8]
    ensures { rows_of result.now ≡ table_of tree }
{
    &TABLE
}

pub fn forms() -> &'static [u8]
    ensures { slot_at result.now ≡ slot_of }
{
    &SLOTS
}
