//! The page that a table of keys stands in, as HTML.
//!
//! Nothing is loaded from elsewhere, and whatever comes from the keys goes into the page as text, never as HTML.

/// What stands before the keys, up to the script that holds them as JSON.
pub const FRONT: &str = r##"<!DOCTYPE html>
<html lang="en">
<head>
<meta charset="utf-8">
<meta http-equiv="Content-Security-Policy"
 content="default-src 'none'; style-src 'unsafe-inline'; script-src 'unsafe-inline'; base-uri 'none'; form-action 'none'">
<meta name="viewport" content="width=device-width">
<title>Registry keys</title>
<style>
* { box-sizing: border-box; }
body { display: flex; height: 100vh; margin: 0; font: 14px/1.5 sans-serif; color: #222; background: #fff; }
nav { flex: 0 0 24em; overflow: auto; padding: 1em; border-right: 1px solid #ccc; background: #f7f7f7; }
main { flex: 1; overflow: auto; padding: 1em; }
a { color: #06c; text-decoration: none; }
a:hover { text-decoration: underline; }
a[aria-current] { font-weight: bold; color: #222; }
input { width: 100%; padding: 0.3em; font: inherit; }
ul { list-style: none; margin: 0; padding-left: 1.2em; }
#tree { padding-left: 0; }
#hits { padding-left: 0; overflow-wrap: anywhere; }
h1 { font-size: 1.2em; margin-top: 0; overflow-wrap: anywhere; }
dl { display: grid; grid-template-columns: max-content 1fr; gap: 0.2em 1em; }
dd { margin: 0; overflow-wrap: anywhere; }
table { border-collapse: collapse; }
th, td { padding: 0.2em 0.6em; border: 1px solid #ccc; text-align: left; vertical-align: top; }
td { white-space: pre-wrap; overflow-wrap: anywhere; unicode-bidi: plaintext; }
.digits { font-family: monospace; }
.unnamed { font-style: italic; }
</style>
</head>
<body>
<nav>
<input id="wanted" type="search" placeholder="Search paths, names and data" aria-label="Search">
<p id="count"></p>
<ul id="hits"></ul>
<ul id="tree"></ul>
</nav>
<main id="key"><noscript>This page shows its keys by a script, which doesn't run here.</noscript></main>
<script type="application/json" id="keys">
"##;

/// What stands behind them: the script that shows them.
pub const BACK: &str = r##"</script>
<script>
"use strict";

const TYPES = ["REG_NONE", "REG_SZ", "REG_EXPAND_SZ", "REG_BINARY", "REG_DWORD", "REG_DWORD_BIG_ENDIAN", "REG_LINK", "REG_MULTI_SZ",
  "REG_RESOURCE_LIST", "REG_FULL_RESOURCE_DESCRIPTOR", "REG_RESOURCE_REQUIREMENTS_LIST", "REG_QWORD"];
const LONG_NUMBER = 11;
const MOST_HITS = 1000;
const AT_A_TIME = 500;

const holder = document.getElementById("keys");
const keys = JSON.parse(holder.textContent);
holder.remove();

// Whether a path goes on from another one.
function goesOn(front, path) {
  return path.charCodeAt(front.length) === 92 && path.startsWith(front);
}

// Which key is above each, and which ones are right below it. A key stands behind the one above it, and between them only what is below
// that one. So the way to a key is known from the key before it.
const above = [];
const below = [];
const way = [];
keys.forEach((key, place) => {
  while (way.length > 1 && !goesOn(keys[way.at(-1)].path, key.path)) way.pop();
  const parent = way.length === 0 ? -1 : way.at(-1);
  above.push(parent);
  below.push([]);
  if (parent >= 0) below[parent].push(place);
  way.push(place);
});

// The keys that stand in the tree, each with its link, and which one is chosen.
const nodes = new Map();
let chosen = -1;

// An element with a text in it.
function make(tag, text = "", kind = "") {
  const element = document.createElement(tag);
  element.textContent = text;
  element.className = kind;
  return element;
}

function linkTo(place, text) {
  const link = make("a", text);
  link.href = "#" + encodeURIComponent(keys[place].path);
  return link;
}

// Puts elements into a list, some at a time, with a button for more; answers what shows as many as are asked for.
function grow(list, behind, count, add) {
  const button = make("button");
  let shown = 0;
  function show(end) {
    button.remove();
    for (; shown < Math.min(end, count); shown++) list.append(add(shown));
    button.textContent = "more (" + (count - shown) + ")";
    if (shown < count) behind.after(button);
  }
  button.addEventListener("click", () => show(shown + AT_A_TIME));
  show(AT_A_TIME);
  return show;
}

// A key in the tree; what is below it is there only while it is open.
function branch(place) {
  const path = keys[place].path;
  const name = place === 0 ? path : path.slice(path.lastIndexOf("\\") + 1);
  const node = { link: linkTo(place, name || "(root)"), details: null, summary: null, show: null };
  const item = make("li");
  nodes.set(place, node);
  if (place === chosen) node.link.setAttribute("aria-current", "true");
  if (below[place].length === 0) {
    item.append(node.link);
    return item;
  }
  node.details = make("details");
  node.summary = make("summary");
  node.summary.append(node.link);
  node.details.append(node.summary);
  node.details.addEventListener("toggle", () => {
    if (nodes.get(place) === node) (node.details.open ? openNode : closeNode)(node, place);
  });
  item.append(node.details);
  return item;
}

function openNode(node, place) {
  if (node.details === null || node.show !== null) return;
  const list = make("ul");
  node.details.open = true;
  node.details.append(list);
  node.show = grow(list, list, below[place].length, (index) => branch(below[place][index]));
}

function closeNode(node) {
  node.details.replaceChildren(node.summary);
  node.show = null;
}

// Opens all that is above a key.
function reveal(place) {
  const parent = above[place];
  if (parent < 0) return;
  reveal(parent);
  openNode(nodes.get(parent), parent);
  nodes.get(parent).show(below[parent].indexOf(place) + 1);
}

// Data as a text: several strings in a line each, and bytes as digits.
function textOf(data) {
  if (Array.isArray(data)) return data.join("\n");
  return typeof data === "object" ? data.hex : String(data);
}

function cellOf(value) {
  const isNumber = typeof value.data === "number" || (value.type === LONG_NUMBER && typeof value.data === "string");
  if (isNumber) return make("td", value.data + " (0x" + BigInt(value.data).toString(16) + ")");
  const isBytes = typeof value.data === "object" && !Array.isArray(value.data);
  return isBytes ? make("td", value.data.hex.replace(/../g, "$& ").trim(), "digits") : make("td", textOf(value.data));
}

function rowOf(value) {
  const row = make("tr");
  row.append(value.name === "" ? make("td", "(default)", "unnamed") : make("td", value.name));
  row.append(make("td", TYPES[value.type] ?? String(value.type)), cellOf(value));
  return row;
}

function showKey(key) {
  const facts = make("dl");
  for (const name of ["time", "marks", "class", "security"]) facts.append(make("dt", name), make("dd", String(key[name])));
  const table = make("table");
  const head = make("tr");
  const body = make("tbody");
  for (const name of ["name", "type", "data"]) head.append(make("th", name));
  table.append(head, body);
  document.getElementById("key").replaceChildren(make("h1", key.path || "(root)"), facts, table);
  grow(body, table, key.values.length, (index) => rowOf(key.values[index]));
}

function choose(place) {
  if (nodes.has(chosen)) nodes.get(chosen).link.removeAttribute("aria-current");
  chosen = place;
  reveal(place);
  const link = nodes.get(place).link;
  link.setAttribute("aria-current", "true");
  link.scrollIntoView({ block: "nearest" });
  showKey(keys[place]);
}

// Chooses the key that the page's address names, or the first one.
function follow() {
  let path = location.hash.slice(1);
  try {
    path = decodeURIComponent(path);
  } catch {
    // It is no path, and none is found.
  }
  const place = path === "" ? 0 : keys.findIndex((key) => key.path === path);
  if (place < 0) document.getElementById("key").replaceChildren(make("p", "There is no key " + path));
  else choose(place);
}

// The keys that a text is found in, letters folded: in the path, or in a value's name or data.
function* found(text) {
  const has = (where) => where.toLowerCase().includes(text);
  for (let place = 0; place < keys.length; place++) {
    if (has(keys[place].path)) yield { place, what: "" };
    for (const { name, data } of keys[place].values) {
      if (has(name) || has(textOf(data))) yield { place, what: name + " = " + textOf(data).slice(0, 200) };
    }
  }
}

let searched = "";

function search() {
  const text = document.getElementById("wanted").value.toLowerCase();
  if (text === searched) return;
  searched = text;
  const hits = [];
  let isAll = true;
  for (const hit of text === "" ? [] : found(text)) {
    isAll = hits.length < MOST_HITS;
    if (!isAll) break;
    const item = make("li");
    item.append(linkTo(hit.place, keys[hit.place].path || "(root)"), make("div", hit.what));
    hits.push(item);
  }
  const count = isAll ? hits.length + " found" : "the first " + MOST_HITS + " found";
  document.getElementById("count").textContent = text === "" ? "" : count;
  document.getElementById("hits").replaceChildren(...hits);
  document.getElementById("tree").hidden = text !== "";
}

document.getElementById("tree").append(branch(0));
openNode(nodes.get(0), 0);
follow();
addEventListener("hashchange", follow);
document.getElementById("wanted").addEventListener("change", search);
document.getElementById("wanted").addEventListener("search", search);
</script>
</body>
</html>
"##;
