//! The page: fixed parts, and the data between them.
use crate::outline::append_data;
use crate::script::SCRIPT;
use crate::style::STYLE;
use std::alloc::Global;
use tc_histtext::Text;
use tc_lists::NoMemory;
use tc_term::Name;

// What stands before the style: nothing is loaded from anywhere.
const HEAD: &[u8] = br#"<!DOCTYPE html>
<html lang="en">
<head>
<meta charset="utf-8">
<meta http-equiv="Content-Security-Policy"
  content="default-src 'none'; style-src 'unsafe-inline'; script-src 'unsafe-inline'">
<meta name="viewport" content="width=device-width, initial-scale=1">
<title>A run of tuple centres</title>
<style>
"#;

// What stands between the style and the data.
const BODY: &[u8] = br#"</style>
</head>
<body>
<header>
<h1 id="title">A run of tuple centres</h1>
<p id="ended"></p>
</header>
<noscript><p>This page draws its data by a script, which is switched off here.</p></noscript>
<details id="counts" open>
<summary>Counts</summary>
<div id="tables"></div>
</details>
<div id="top">
<form id="filters" role="search">
<label>Agent <select id="agent"></select></label>
<label>Centre <select id="centre"></select></label>
<label>Words <input id="words" type="search" placeholder="of tuples and results"></label>
<label>Show <select id="show"></select></label>
<button id="clear" type="button">Clear</button>
<output id="found"></output>
<span id="parts"></span>
</form>
<div id="heads"></div>
</div>
<div id="rows" tabindex="0" role="listbox" aria-label="what happened, in order"></div>
<footer>
Rows of one step need not have waited for each other. Keys: <kbd>/</kbd> to the words,
<kbd>Tab</kbd> to the rows, <kbd>&uarr;</kbd> <kbd>&darr;</kbd> move, <kbd>Enter</kbd> unfolds,
<kbd>p</kbd> to the answer or the call.
</footer>
<script id="data" type="application/json">
"#;

// What stands between the data and the script, and behind it.
const BEHIND: &[u8] = b"</script>\n<script>\n";

const END: &[u8] = b"</script>\n</body>\n</html>\n";

/// Appends the page of a text, which has these centres and these agents.
pub fn append_page(
    alloc: Global,
    centres: &[Name],
    agents: &[Name],
    text: &Text,
    into: &mut Vec<u8>,
) -> Result<(), NoMemory> {
    into.extend_from_slice(HEAD)?;
    into.extend_from_slice(STYLE)?;
    into.extend_from_slice(BODY)?;
    append_data(alloc, centres, agents, text, into)?;
    into.extend_from_slice(BEHIND)?;
    into.extend_from_slice(SCRIPT)?;
    into.extend_from_slice(END)
}
