//! How the page looks, and what its table does.

/// The style sheet.
pub(crate) const STYLE: &str =
    r#":root{color-scheme:light dark;--ink:#1b1f24;--soft:#5d6672;--line:#d8dde3;--face:#fff;--band:#f4f6f8;
--tint:#0b5cad;--wash:#e7f0fa}
@media(prefers-color-scheme:dark){:root{--ink:#e4e8ed;--soft:#9aa4b0;--line:#333a43;--face:#15181c;--band:#1d2227;
--tint:#6cb2f5;--wash:#1c2c3c}}
*{box-sizing:border-box}
body{margin:0 auto;max-width:1340px;padding:28px 24px 60px;background:var(--face);color:var(--ink);
font:15px/1.5 system-ui,sans-serif;font-variant-numeric:tabular-nums}
h1{font-size:26px;line-height:1.25;margin:0 0 4px}
h2{font-size:18px;margin:36px 0 2px}
p{margin:0 0 12px;color:var(--soft);max-width:75ch}
dl{display:grid;grid-template-columns:repeat(auto-fit,minmax(150px,1fr));margin:18px 0 0;
border:1px solid var(--line);border-radius:6px;overflow:hidden}
dl div{margin:0 -1px -1px 0;border:solid var(--line);border-width:0 1px 1px 0;padding:10px 14px}
dt{color:var(--soft);font-size:13px}
dd{margin:0;font-size:22px;line-height:1.3}
.two{display:grid;grid-template-columns:repeat(auto-fit,minmax(min(340px,100%),1fr));gap:0 40px}
.bars{width:100%;max-width:420px;display:block}
.bars rect{fill:var(--tint);rx:2px}
.bars .e{cursor:pointer}
.bars .e:hover{fill:var(--tint);text-decoration:underline}
.wide{overflow-x:auto;padding-bottom:6px}
svg text{fill:var(--ink);font-size:13px}
svg .e{text-anchor:end}
svg .n{fill:var(--soft)}
.net{display:block}
.net rect{fill:var(--band);stroke:var(--line)}
.net a:hover rect,.net a:focus rect{fill:var(--wash);stroke:var(--tint)}
.net path{fill:none;stroke:var(--tint);stroke-width:1.3;opacity:.45}
section:has(.bars):not(:has(.bars rect)),section:has(.net):not(:has(.net a)){display:none}
.find{display:flex;flex-wrap:wrap;gap:8px 10px;align-items:center;max-width:none}
input,select,button{font:inherit;color:inherit;background:var(--face);border:1px solid var(--line);
border-radius:5px;padding:6px 10px}
input{flex:1 1 220px;max-width:420px}
button{cursor:pointer}
:focus-visible{outline:2px solid var(--tint);outline-offset:1px}
table{width:100%;border-collapse:collapse}
th,td{padding:5px 10px;border-bottom:1px solid var(--line);text-align:left;vertical-align:top}
th{position:sticky;top:0;background:var(--band);cursor:pointer;white-space:nowrap;font-weight:600;
user-select:none}
th::after{content:"\2193";margin-left:5px;color:transparent}
th:hover::after{color:var(--line)}
th[aria-sort]{color:var(--tint)}
th[aria-sort]::after{color:inherit}
th[aria-sort=ascending]::after{content:"\2191"}
th:nth-child(3),td:nth-child(3),th:nth-child(n+5),td:nth-child(n+5){text-align:right;white-space:nowrap}
td:nth-child(2){white-space:nowrap;color:var(--soft)}
td:first-child{width:38%}
td:first-child,td:nth-child(4){overflow-wrap:anywhere}
tbody tr:hover{background:var(--band)}
summary{cursor:pointer}
b{font-weight:400}
pre{margin:6px 0;padding:8px 12px;background:var(--wash);border-radius:5px;font:12.5px/1.55 ui-monospace,monospace;
white-space:pre-wrap;overflow-wrap:anywhere}
@media(max-width:700px){
body{padding:18px 14px 40px}
h1{font-size:22px}
dl{grid-template-columns:1fr 1fr}
dd{font-size:19px}
thead tr{display:flex;flex-wrap:wrap;background:var(--band);border-bottom:1px solid var(--line)}
th{position:static;border:0}
tbody tr{display:flex;flex-wrap:wrap;border-bottom:1px solid var(--line);padding:7px 0}
td{border:0;padding:1px 12px 1px 0}
td:first-child{flex:1 0 100%}
td:nth-child(n+2){color:var(--soft);font-size:13px}
td:empty{display:none}
td:nth-child(3)::before{content:"wave "}
td:nth-child(5)::before{content:"cost "}
td:nth-child(6)::before{content:"made "}
td:nth-child(7)::before{content:"kept "}
td:nth-child(8)::before{content:"bytes "}
}
@media print{.find,#more{display:none}th{position:static}}
"#;

/// Sorting and searching. Of many rows that are found the first few hundred are shown, until more are asked for.
pub(crate) const SCRIPT: &str = r#"'use strict';
const FEW = 300, ROOM = 254;
const by = id => document.getElementById(id);
const body = by('rows'), find = by('find'), which = by('which'), more = by('more');
const all = [...body.rows], heads = [...document.querySelectorAll('th')];
const many = count => count.toLocaleString('en');
const text = (row, at) => at ? row.cells[at].textContent : row.cells[0].querySelector('summary, b').textContent;
const words = all.map(row => [0, 1, 2, 3, 4, 5, 6, 7].map(at => text(row, at)));
const place = new Map(all.map((row, at) => [row, at]));
let sorted = all, found = all, count = FEW;

// What is told of a class opens below its name.
function fold(row) {
  const cell = row.cells[0], name = cell.firstElementChild;
  if (name.tagName !== 'B') return;
  const folded = document.createElement('details'), summary = document.createElement('summary');
  summary.textContent = name.textContent;
  folded.append(summary, cell.lastElementChild);
  cell.replaceChildren(folded);
  for (const at of [4, 5, 6, 7]) {
    if (text(row, at)) row.cells[at].textContent = many(Number(text(row, at)));
  }
}

function show() {
  const shown = found.slice(0, count);
  shown.forEach(fold);
  body.replaceChildren(...shown);
  more.hidden = count >= found.length;
  by('shown').textContent = many(found.length) + ' of ' + many(all.length);
}

// Whether a row fits what is searched for: a part of a name or of a reason, or some waves.
function fitting(word) {
  const [, kind, number] = word.match(/^(wave|waves from) (\d+)$/) || [];
  if (kind === 'wave') return ([name, when, wave]) => wave === number;
  if (kind) return ([name, when, wave]) => wave && Number(wave) >= Number(number);
  return ([name, when, wave, reason]) => (name + ' ' + reason).toLowerCase().includes(word);
}

function sift() {
  const fits = fitting(find.value.trim().toLowerCase()), at = which.value;
  found = sorted.filter(row => {
    const cells = words[place.get(row)];
    return (!at || cells[1] === at) && fits(cells);
  });
  count = FEW;
  show();
}

function sort_by(column) {
  const texts = column < 4 && column !== 2, first = texts ? 'ascending' : 'descending';
  const up = (heads[column].getAttribute('aria-sort') === first) !== texts;
  const value = cell => texts ? cell : cell === '' ? -1 : Number(cell);
  const pairs = all.map((row, at) => [value(words[at][column]), row]);
  pairs.sort((a, b) => (a[0] < b[0] ? -1 : a[0] > b[0] ? 1 : 0) * (up ? 1 : -1));
  sorted = pairs.map(pair => pair[1]);
  heads.forEach(head => head.removeAttribute('aria-sort'));
  heads[column].setAttribute('aria-sort', up ? 'ascending' : 'descending');
  sift();
}

function search(word) {
  which.value = '';
  find.value = word;
  sift();
}

// A name in a picture stands at the left, with its end where there is no room for the whole.
function place_name(link) {
  const number = link.querySelector('.n'), room = link.querySelector('svg'), name = room.firstElementChild;
  const whole = name.textContent;
  if (number) number.textContent = many(Number(number.textContent));
  const width = ROOM - (number ? number.getComputedTextLength() + 12 : 0);
  room.setAttribute('width', width);
  name.classList.remove('e');
  name.setAttribute('x', 0);
  for (let cut = 1; cut < whole.length && name.getComputedTextLength() > width; cut++) {
    name.textContent = '\u2026' + whole.slice(cut);
  }
}

heads.forEach((head, column) => {
  head.tabIndex = 0;
  head.onclick = () => sort_by(column);
  head.onkeydown = event => { if (event.key === 'Enter') sort_by(column); };
});
find.oninput = which.onchange = sift;
more.onclick = () => { count += FEW; show(); };
document.addEventListener('click', event => {
  const bar = event.target.closest('.bars .e'), link = event.target.closest("a[href^='#c']");
  if (bar) {
    search(bar.textContent);
    find.scrollIntoView();
  } else if (link) {
    const row = all[Number(link.getAttribute('href').slice(2))];
    event.preventDefault();
    search(text(row, 0));
    if (!row.isConnected) { found = [row]; show(); }
    row.querySelector('details').open = true;
    row.scrollIntoView({block: 'center'});
  }
});
document.querySelectorAll('dd').forEach(total => { total.textContent = many(Number(total.textContent)); });
document.querySelectorAll('.net a').forEach(place_name);
show();
body.hidden = false;
"#;
